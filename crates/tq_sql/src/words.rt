// Words: the keywords in any ASCII case, and names.

ghost use Rattle.std.specs.Prelude.{◌≡◌, map};
ghost use Rattle.tq_sql.specs.Tokens as spec;

use crate::token::TokenKind;
use tq_base::{MAX_NAME, is_same_word};

const KEYWORDS: [(&[u8], TokenKind); 15] = [
    (b"validtime", TokenKind::Validtime),
    (b"period", TokenKind::Period),
    (b"select", TokenKind::Select),
    (b"from", TokenKind::From),
    (b"where", TokenKind::Where),
    (b"group", TokenKind::Group),
    (b"by", TokenKind::By),
    (b"and", TokenKind::And),
    (b"or", TokenKind::Or),
    (b"not", TokenKind::Not),
    (b"count", TokenKind::Count),
    (b"sum", TokenKind::Sum),
    (b"as", TokenKind::As),
    (b"except", TokenKind::Except),
    (b"all", TokenKind::All),
];

// The kind of a word that is not a keyword in an earlier row of the table.
fn keyword_kind(mut table: &[(&[u8], TokenKind)], word: &[u8]) -> TokenKind
    ensures { result ≡ spec.keyword_kind (map (λ row. (row.0.now, row.1)) table.entry.now) word.now }
{
    'table: while let [row, rest @ ..] = table {
        if is_same_word(row.0, word) {
            return row.1;
        }
        table = rest;
    }
    if word.len() <= MAX_NAME {
        TokenKind::Name
    } else {
        TokenKind::LongWord
    }
}

/// The kind of a word: a keyword, a name, or a word that is too long for a name.
#[tactic(auto, unfolding(crate::specs::Tokens::word_kind))]
pub fn word_kind(word: &[u8]) -> TokenKind
    ensures { result ≡ spec.word_kind word.now }
{
    keyword_kind(&KEYWORDS, word)
}
