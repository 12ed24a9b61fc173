use crate::listed::{Kind, Listed, ListedAttribute, ListedDimension, ListedElement};
use case_lines::spell;
use cube_fixed::{Money, Value, read};
use lists::ListOf;
use script_run::{LoadParams, Param};
use std::alloc::{AllocError, Global};

/// What the lines of a case say.
#[derive(Drop)]
pub struct Scene {
    pub cells: Vec<Listed>,
    pub dimensions: Vec<ListedDimension>,
    pub attributes: Vec<ListedAttribute>,
    pub stored: u64,
    pub fed: u64,
    pub params: LoadParams,
    /// The file of the records, a line for each.
    pub file: Vec<u8>,
    /// The byte between the columns of the file.
    pub separator: u8,
    /// The byte between units and decimals of the numbers in the file.
    pub decimal: u8,
    /// How many records may be passed over.
    pub rejects: u32,
    pub script: Vec<u8>,
}

/// More writes than any case has.
const ROOM: u64 = 1_000_000_000;

fn list_of(alloc: Global, text: &str) -> Result<ListOf<u8>, AllocError> {
    Ok(ListOf::new(Vec::from_slice(alloc, text.as_bytes())?))
}

fn number_of(text: &str) -> Money {
    read(text.as_bytes()).unwrap_or(Money::ZERO)
}

fn value_of(text: &str) -> Value {
    match read(text.as_bytes()) {
        Ok(number) => Value::Num(number),
        Err(_) => Value::Over,
    }
}

// The byte that a line gives for a sign of the file, 0 where it gives none.
fn first_byte(text: &str) -> u8 {
    text.as_bytes().first().copied().unwrap_or(0)
}

/// An element of a dimension: behind a `+` stands the name of a consolidated one.
fn element_of(alloc: Global, word: &str) -> Result<ListedElement, AllocError> {
    match word.strip_prefix('+') {
        Some(name) => Ok(ListedElement {
            name: list_of(alloc, name)?,
            is_leaf: false,
        }),
        None => Ok(ListedElement {
            name: list_of(alloc, word)?,
            is_leaf: true,
        }),
    }
}

impl Scene {
    pub fn new(alloc: Global) -> Scene {
        Scene {
            cells: Vec::new(alloc),
            dimensions: Vec::new(alloc),
            attributes: Vec::new(alloc),
            stored: ROOM,
            fed: ROOM,
            params: LoadParams::new(alloc),
            file: Vec::new(alloc),
            separator: b',',
            decimal: b'.',
            rejects: 0,
            script: Vec::new(alloc),
        }
    }

    /// Adds what a line says, and says whether it says anything.
    pub fn add(&mut self, alloc: Global, line: &str) -> Result<bool, AllocError> {
        let (word, rest) = line.split_once(' ').unwrap_or((line, ""));
        match word {
            "leaf" => self.add_cell(alloc, Kind::Leaf, rest),
            "total" => self.add_cell(alloc, Kind::Total, rest),
            "ruled" => self.add_cell(alloc, Kind::Ruled, rest),
            "dimension" => self.add_dimension(alloc, rest),
            "attribute" => self.add_attribute(alloc, rest),
            "number" => self.add_number(alloc, rest),
            "text" => self.add_text(alloc, rest),
            "row" => self.add_row(rest),
            "separator" => {
                self.separator = first_byte(rest);
                Ok(true)
            }
            "decimal" => {
                self.decimal = first_byte(rest);
                Ok(true)
            }
            "rejects" => {
                self.rejects = rest.parse::<u32>().unwrap_or(0);
                Ok(true)
            }
            "stored" => {
                self.stored = rest.parse::<u64>().unwrap_or(ROOM);
                Ok(true)
            }
            "fed" => {
                self.fed = rest.parse::<u64>().unwrap_or(ROOM);
                Ok(true)
            }
            _ => spell(line, &mut self.script),
        }
    }

    fn add_cell(&mut self, alloc: Global, kind: Kind, rest: &str) -> Result<bool, AllocError> {
        let (names, value) = rest.split_once(' ').unwrap_or((rest, "0"));
        let names = list_of(alloc, names)?;
        let value = value_of(value);
        self.cells.push(Listed { names, kind, value })?;
        Ok(true)
    }

    fn add_dimension(&mut self, alloc: Global, rest: &str) -> Result<bool, AllocError> {
        let (name, words) = rest.split_once(' ').unwrap_or((rest, ""));
        let name = list_of(alloc, name)?;
        let mut elements = Vec::new(alloc);
        for word in words.split(' ') {
            elements.push(element_of(alloc, word)?)?;
        }
        let elements = ListOf::new(elements);
        self.dimensions.push(ListedDimension { name, elements })?;
        Ok(true)
    }

    fn add_attribute(&mut self, alloc: Global, rest: &str) -> Result<bool, AllocError> {
        let (names, text) = rest.split_once(' ').unwrap_or((rest, ""));
        let names = list_of(alloc, names)?;
        let text = list_of(alloc, text)?;
        self.attributes.push(ListedAttribute { names, text })?;
        Ok(true)
    }

    fn add_number(&mut self, alloc: Global, rest: &str) -> Result<bool, AllocError> {
        let (word, number) = rest.split_once(' ').unwrap_or((rest, "0"));
        let word = list_of(alloc, word)?;
        let param = (word, Param::Number(number_of(number)));
        self.params.push(alloc, param)?;
        Ok(true)
    }

    fn add_text(&mut self, alloc: Global, rest: &str) -> Result<bool, AllocError> {
        let (word, text) = rest.split_once(' ').unwrap_or((rest, ""));
        let word = list_of(alloc, word)?;
        let text = list_of(alloc, text)?;
        self.params.push(alloc, (word, Param::Text(text)))?;
        Ok(true)
    }

    fn add_row(&mut self, rest: &str) -> Result<bool, AllocError> {
        // An empty line of a file is no record.
        let columns = if rest.is_empty() { "\"\"" } else { rest };
        self.file.extend_from_slice(columns.as_bytes())?;
        self.file.push(b'\n')?;
        Ok(true)
    }
}
