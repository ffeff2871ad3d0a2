// Memory that is used again for each field.

use std::alloc::Global;

/// Texts that are made while a field is converted.
#[derive(Drop)]
pub struct Scratch {
    pub text: Vec<u8>,
    pub year: Vec<u8>,
    pub month: Vec<u8>,
    pub day: Vec<u8>,
}

impl Scratch {
    pub fn new(alloc: Global) -> Scratch {
        Scratch {
            text: Vec::new(alloc),
            year: Vec::new(alloc),
            month: Vec::new(alloc),
            day: Vec::new(alloc),
        }
    }
}
