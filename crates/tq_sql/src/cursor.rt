// A cursor over tokens, and the reasons to stop reading.

ghost use Rattle.std.specs.Prelude.{◌≡◌, ◌≢◌, ◌≤◌, ◌<◌, ◌++◌, ◌∷◌, [], length, map, option_map, slice_get, true, OnOk};
ghost use Rattle.tq_sql.specs.Tokens as lexis;
ghost use Rattle.tq_sql.specs.Descent as spec;
ghost use Rattle.tq_sql.specs.Descent.{Peeks, Reads};
ghost use Rattle.tq_sql.specs.TokenViews.{token_view};

use crate::texts::unquoted;
use crate::token::{Token, TokenKind};
use std::alloc::{AllocError, AllocFailed, Global};
use std::marker::Model;
use tq_base::{Name, Text, fold_name, read_int};

/// Why reading stops.
#[derive(Clone, Copy, PartialEq, Eq, Debug)]
pub enum Refusal {
    /// No statement continues with the next token, or no statement ends here.
    Unexpected,
    /// The next token opens one level too many.
    TooDeep,
    /// An allocation failed.
    Memory,
}

impl From<AllocError> for Refusal {
    ghost use Rattle.std.specs.Prelude.{◌≡◌};
    ghost use Rattle.tq_sql.specs.declared.cursor.Refusal.TheVariants.{Memory};

    ghost from_gives = { λ _ e. e ≡ Memory };

    fn from(_error: AllocError) -> Refusal {
        Refusal::Memory
    }
}

impl<T: Drop> From<AllocFailed<T>> for Refusal {
    ghost use Rattle.std.specs.Prelude.{◌≡◌};
    ghost use Rattle.tq_sql.specs.declared.cursor.Refusal.TheVariants.{Memory};

    ghost from_gives = { λ _ e. e ≡ Memory };

    fn from(_error: AllocFailed<T>) -> Refusal {
        Refusal::Memory
    }
}

/// Appends one item; `AllocError` if an allocation failed.
pub fn push<T: Drop>(items: &mut Vec<T>, item: T) -> Result<(), AllocError>
    ensures { OnOk result (items.new.items ≡ items.old.items ++ item ∷ []) }
{
    items.push(item)?;
    Ok(())
}

#[tactic(auto, unfolding(crate::specs::Tokens::same_kind))]
fn is_same_kind(left: TokenKind, right: TokenKind) -> bool
    ensures value { result ≡ lexis.same_kind left right }
    ensures same { result ≡ true → left ≡ right }
{
    left == right
}

/// The remaining tokens. Contracts see them as a list.
#[derive(Drop)]
pub struct Cursor<'a> {
    rest: &'a [Token<'a>],
}

impl<'a> Model for Cursor<'a> {
    ghost use Rattle.std.specs.Prelude.{List};
    ghost use Rattle.tq_sql.specs.Tokens.{Token};

    ghost Value = { List Token };

    ghost use Rattle.tq_sql.specs.CursorView.{tokens_left};

    ghost view = { tokens_left };
}

impl<'a> Cursor<'a> {
    pub fn new(rest: &'a [Token<'a>]) -> Cursor<'a>
        ensures { result ≡ map token_view rest.now }
    {
        Cursor { rest }
    }

    /// The byte at which the next token begins, if there is one.
    pub fn offset(&self) -> Option<usize>
        ensures { result ≡ option_map (λ t. t.at) (slice_get self.now 0) }
    {
        match self.rest {
            [token, ..] => Some(token.at),
            [] => None,
        }
    }

    /// The kind of the next token, `End` if none remains.
    #[tactic(auto, unfolding(crate::specs::Descent::kind_at))]
    pub fn peek(&self) -> TokenKind
        ensures { result ≡ spec.kind_at self.now }
    {
        match self.rest {
            [token, ..] => token.kind,
            [] => TokenKind::End,
        }
    }

    /// Skips the next token, if there is one.
    #[tactic(auto, unfolding(crate::specs::Descent::next))]
    pub fn skip(&mut self)
        ensures next { self.new ≡ spec.next self.old }
        ensures shorter { length self.new ≤ length self.old }
    {
        if let [_, rest @ ..] = self.rest {
            self.rest = rest;
        }
    }

    /// Whether the next token is of the kind.
    #[tactic(auto, unfolding(crate::specs::Descent::sees))]
    pub fn sees(&self, kind: TokenKind) -> bool
        ensures { result ≡ spec.sees kind self.now }
    {
        is_same_kind(self.peek(), kind)
    }

    /// Takes the next token if it is of the kind, and returns whether it was.
    #[tactic(auto, unfolding(crate::specs::Descent::after))]
    pub fn eat(&mut self, kind: TokenKind) -> bool
        ensures found { result ≡ spec.sees kind self.old }
        ensures after { self.new ≡ spec.after kind self.old }
        ensures shorter { length self.new ≤ length self.old }
        ensures taken { result ≡ true → kind ≢ TokenKind.End → length self.new < length self.old }
    {
        let found = self.sees(kind);
        if found {
            self.skip();
        }
        found
    }

    /// Takes the next token, which must be of the kind.
    #[tactic(auto, unfolding(crate::specs::Descent::expect))]
    pub fn expect(&mut self, kind: TokenKind) -> Result<(), Refusal>
        ensures reads { Reads (spec.expect kind self.old) result self.new }
        ensures shorter { length self.new ≤ length self.old }
    {
        if self.sees(kind) {
            self.skip();
            Ok(())
        } else {
            Err(Refusal::Unexpected)
        }
    }

    /// Requires that no token remains.
    #[tactic(auto, unfolding(crate::specs::Descent::ended))]
    pub fn end(&self) -> Result<(), Refusal>
        ensures { Reads (spec.ended self.now) result self.now }
    {
        match self.rest {
            [] => Ok(()),
            _ => Err(Refusal::Unexpected),
        }
    }

    // The bytes of the next token, which must be of the kind.
    #[tactic(auto, unfolding(crate::specs::Descent::peek_bytes))]
    fn peek_bytes(&self, kind: TokenKind) -> Result<&'a [u8], Refusal>
        ensures { Peeks (spec.peek_bytes kind self.now) result self.now }
    {
        match self.rest {
            [token, ..] if is_same_kind(token.kind, kind) => Ok(token.text),
            _ => Err(Refusal::Unexpected),
        }
    }

    /// Takes a name and folds it.
    #[tactic(auto, unfolding(crate::specs::Descent::name_at))]
    pub fn name(&mut self, alloc: Global) -> Result<Name, Refusal>
        ensures reads { Reads (spec.name_at self.old) result self.new }
        ensures shorter { length self.new ≤ length self.old }
    {
        let written = self.peek_bytes(TokenKind::Name)?;
        let Some(name) = fold_name(alloc, written)? else {
            return Err(Refusal::Unexpected);
        };
        self.skip();
        Ok(name)
    }

    /// Takes a number.
    #[tactic(auto, unfolding(crate::specs::Descent::number_at))]
    pub fn number(&mut self) -> Result<i64, Refusal>
        ensures reads { Reads (spec.number_at self.old) result self.new }
        ensures shorter { length self.new ≤ length self.old }
    {
        let written = self.peek_bytes(TokenKind::Number)?;
        let Some(number) = read_int(written) else {
            return Err(Refusal::Unexpected);
        };
        self.skip();
        Ok(number)
    }

    /// Takes a text: the bytes inside its quotes, with each doubled quote as one quote.
    #[tactic(auto, using(crate::proofs::Utf8Lemmas::utf8_tests), unfolding(crate::specs::Descent::text_at))]
    pub fn text(&mut self, alloc: Global) -> Result<Text, Refusal>
        ensures reads { Reads (spec.text_at self.old) result self.new }
        ensures shorter { length self.new ≤ length self.old }
    {
        let written = self.peek_bytes(TokenKind::Text)?;
        let bytes = unquoted(alloc, written)?;
        match std::str::from_utf8(&bytes) {
            Ok(valid) => {
                let text = Text::of(String::from_str(alloc, valid)?);
                self.skip();
                Ok(text)
            }
            Err(_) => Err(Refusal::Unexpected),
        }
    }
}
