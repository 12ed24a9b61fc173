use case_lines::Texts;
use std::alloc::{AllocError, Global};

/// The files of a case, each with its name.
#[derive(Drop)]
pub struct Files {
    named: Vec<(String, Vec<u8>)>,
}

impl Files {
    /// The files of these lines, each headed by `file NAME`. None where a line is none of a text.
    pub fn of(alloc: Global, texts: &Texts, lines: &str) -> Result<Option<Files>, AllocError> {
        let mut named = Vec::new(alloc);
        for file in lines.split("file ").skip(1) {
            let (name, text) = file.split_once('\n').unwrap_or((file, ""));
            let Some(text) = texts.text_of(alloc, text)? else {
                return Ok(None);
            };
            named.push((String::from_str(alloc, name)?, text))?;
        }
        Ok(Some(Files { named }))
    }

    /// The file of this name; an empty one where there is none.
    pub fn file(&self, name: &str) -> &[u8] {
        match self.find(name) {
            Some((_, text)) => text,
            None => &[],
        }
    }

    /// The name and the text of the file of this name, where there is one.
    pub fn find(&self, name: &str) -> Option<(&str, &[u8])> {
        for (other, text) in &self.named {
            if other.as_str() == name {
                return Some((other.as_str(), text.as_slice()));
            }
        }
        None
    }

    /// The name of a cube's rule file: `rules` for the first, `rules 2` for the second.
    pub fn rules_of(alloc: Global, cube: usize) -> Result<String, AllocError> {
        if cube == 0 {
            return String::from_str(alloc, "rules");
        }
        let number = cube.wrapping_add(1);
        format!(in alloc; "rules {number}")
    }
}
