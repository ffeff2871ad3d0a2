//! A block of a script.

/// A call, its input and the expected output.
#[derive(Drop)]
pub struct Block {
    /// The number of the block's first line, counted from 1.
    pub line: u32,
    /// The first line: a word, and its arguments after a space.
    pub call: String,
    /// The lines between the call and `----`.
    pub input: Vec<String>,
    /// The lines after `----`.
    pub expected: Vec<String>,
}

impl Block {
    /// The word of the call.
    pub fn word(&self) -> &str {
        self.parts().0
    }

    /// The arguments of the call: the text after the first space.
    pub fn arguments(&self) -> &str {
        self.parts().1
    }

    fn parts(&self) -> (&str, &str) {
        self.call
            .as_str()
            .split_once(' ')
            .unwrap_or((self.call.as_str(), ""))
    }
}
