use crate::spelled::spell;
use std::alloc::{AllocError, Global};

/// The texts that have a name.
#[derive(Drop)]
pub struct Texts {
    named: Vec<(String, Vec<u8>)>,
}

impl Texts {
    pub fn new(alloc: Global) -> Texts {
        Texts {
            named: Vec::new(alloc),
        }
    }

    /// Gives a text this name.
    pub fn name(&mut self, alloc: Global, name: &str, text: Vec<u8>) -> Result<(), AllocError> {
        self.named.push((String::from_str(alloc, name)?, text))?;
        Ok(())
    }

    /// The text of these lines, where `+NAME` means a named one. None where a line is none of a text.
    pub fn text_of(&self, alloc: Global, lines: &str) -> Result<Option<Vec<u8>>, AllocError> {
        let mut text = Vec::new(alloc);
        for line in lines.lines() {
            let is_spelled = match line.strip_prefix('+') {
                Some(name) => self.add_named(name, &mut text)?,
                None => spell(line, &mut text)?,
            };
            if !is_spelled {
                return Ok(None);
            }
        }
        Ok(Some(text))
    }

    fn add_named(&self, name: &str, text: &mut Vec<u8>) -> Result<bool, AllocError> {
        for (other, named) in &self.named {
            if other.as_str() == name {
                text.extend_from_slice(named)?;
                return Ok(true);
            }
        }
        Ok(false)
    }
}
