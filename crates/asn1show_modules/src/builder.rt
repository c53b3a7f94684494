//! Tables that are being filled.
ghost use Rattle.std.specs.Prelude.{◌≡◌, IfOk, length};

use asn1show_schema::Schema;
use asn1show_schema::schema::{
    Beginning, Contents, Name, NamedNumber, Number, Place, Rows, SelectedType,
};
use std::alloc::{AllocError, Global};
use yasna_base::tag::Tag;

/// Tables that are being filled.
#[derive(Drop)]
pub struct Builder {
    /// The memory.
    pub alloc: Global,
    text: Vec<u8>,
    places: Vec<Place>,
    beginnings: Vec<Beginning>,
    // How the values of each definition begin.
    definitions: Vec<Rows>,
    named_numbers: Vec<NamedNumber>,
    // The names in the braces of each INTEGER and BIT STRING that has some.
    names: Vec<Rows>,
    selections: Vec<SelectedType>,
}

/// No name.
pub const NO_NAME: Name = Name { start: 0, end: 0 };

/// No rows.
pub const NO_ROWS: Rows = Rows { first: 0, end: 0 };

/// The value of a place that may be absent for it.
#[derive(Clone, Copy)]
pub struct DefaultValue {
    /// As a module writes it, or nothing if it isn't known.
    pub text: Name,
    /// Its number, if it is one: 0 of FALSE and 1 of TRUE.
    pub number: Option<Number>,
}

/// No value.
pub const NO_DEFAULT: DefaultValue = DefaultValue {
    text: NO_NAME,
    number: None,
};

impl Builder {
    /// Empty tables.
    pub fn new(alloc: Global) -> Builder {
        Builder {
            alloc,
            text: Vec::new(alloc),
            places: Vec::new(alloc),
            beginnings: Vec::new(alloc),
            definitions: Vec::new(alloc),
            named_numbers: Vec::new(alloc),
            names: Vec::new(alloc),
            selections: Vec::new(alloc),
        }
    }

    /// Adds a name.
    pub fn add_name(&mut self, name: &[u8]) -> Result<Name, AllocError> {
        let start = self.text.len();
        if self.text.extend_from_slice(name).is_err() {
            return Err(AllocError);
        }
        Ok(Name {
            start,
            end: self.text.len(),
        })
    }

    /// How many places there are.
    pub fn count_places(&self) -> usize
        ensures { result ≡ length self.now.places.items }
    {
        self.places.len()
    }

    /// How many beginnings there are.
    pub fn count_beginnings(&self) -> usize {
        self.beginnings.len()
    }

    /// Adds a place, and returns its number.
    pub fn add_place(
        &mut self,
        name: Name,
        may_be_absent: bool,
        default: DefaultValue,
        rows: Rows,
    ) -> Result<usize, AllocError>
        ensures { IfOk result (λ number. number ≡ length self.old.places.items) }
    {
        let number = self.places.len();
        let place = Place {
            name,
            may_be_absent,
            default: default.text,
            default_number: default.number,
            first: rows.first,
            end: rows.end,
        };
        if self.places.push(place).is_err() {
            return Err(AllocError);
        }
        Ok(number)
    }

    // Adds a beginning.
    fn add(&mut self, beginning: Beginning) -> Result<(), AllocError> {
        if self.beginnings.push(beginning).is_err() {
            return Err(AllocError);
        }
        Ok(())
    }

    /// Adds one beginning.
    pub fn add_beginning(
        &mut self,
        tag: Option<Tag>,
        contents: Contents,
    ) -> Result<Rows, AllocError> {
        let first = self.beginnings.len();
        self.add(Beginning {
            tag,
            alternative: NO_NAME,
            contents,
        })?;
        Ok(Rows {
            first,
            end: self.beginnings.len(),
        })
    }

    /// Adds the beginnings of rows again, as those of an alternative.
    pub fn add_alternative(&mut self, rows: Rows, alternative: Name) -> Result<(), AllocError> {
        for row in rows.first..rows.end {
            if let Some(beginning) = self.beginnings.get(row) {
                let renamed = Beginning {
                    tag: beginning.tag,
                    alternative,
                    contents: beginning.contents,
                };
                self.add(renamed)?;
            }
        }
        Ok(())
    }

    /// Adds the beginnings of rows again, with another tag.
    pub fn add_tagged(&mut self, rows: Rows, tag: Tag) -> Result<Rows, AllocError> {
        let first = self.beginnings.len();
        for row in rows.first..rows.end {
            if let Some(beginning) = self.beginnings.get(row) {
                let tagged = Beginning {
                    tag: Some(tag),
                    alternative: beginning.alternative,
                    contents: beginning.contents,
                };
                self.add(tagged)?;
            }
        }
        Ok(Rows {
            first,
            end: self.beginnings.len(),
        })
    }

    /// How many named numbers there are.
    pub fn count_named_numbers(&self) -> usize {
        self.named_numbers.len()
    }

    /// Adds a number with a name.
    pub fn add_named_number(&mut self, name: &[u8], number: Number) -> Result<(), AllocError> {
        let name = self.add_name(name)?;
        if self
            .named_numbers
            .push(NamedNumber { name, number })
            .is_err()
        {
            return Err(AllocError);
        }
        Ok(())
    }

    /// Adds the rows of the names in the braces of the next INTEGER or BIT STRING.
    pub fn add_names(&mut self, rows: Rows) -> Result<(), AllocError> {
        if self.names.push(rows).is_err() {
            return Err(AllocError);
        }
        Ok(())
    }

    /// The names in the braces of an INTEGER or BIT STRING, if it has some.
    pub fn names(&self, index: Option<usize>) -> Rows {
        let Some(index) = index else {
            return NO_ROWS;
        };
        match self.names.get(index) {
            Some(rows) => *rows,
            None => NO_ROWS,
        }
    }

    /// The name of a number among rows, which is empty if it has none.
    pub fn name_of(&self, rows: Rows, number: Number) -> Name {
        for row in rows.first..rows.end {
            if let Some(named) = self.named_numbers.get(row) {
                if named.number == number {
                    return named.name;
                }
            }
        }
        NO_NAME
    }

    /// The place of the element under a tag, if one of these rows is EXPLICIT.
    pub fn place_under(&self, rows: Rows) -> Option<usize> {
        match self.beginnings.get(rows.first)?.contents {
            Contents::One(place) => Some(place),
            _ => None,
        }
    }

    /// Notes the number that the element of a place has if the one around it is absent, and returns how it begins.
    pub fn set_default(&mut self, place: usize, number: Option<Number>) -> Rows {
        match self.places.get_mut(place) {
            Some(place) => {
                place.default_number = number;
                Rows {
                    first: place.first,
                    end: place.end,
                }
            }
            None => NO_ROWS,
        }
    }

    /// Adds the type of a place, which the object identifier with these contents selects.
    pub fn add_selected(&mut self, identifier: &[u8], place: usize) -> Result<(), AllocError> {
        let identifier = self.add_name(identifier)?;
        if self
            .selections
            .push(SelectedType { identifier, place })
            .is_err()
        {
            return Err(AllocError);
        }
        Ok(())
    }

    /// Adds how the values of the next definition begin.
    pub fn add_definition(&mut self, rows: Rows) -> Result<(), AllocError> {
        if self.definitions.push(rows).is_err() {
            return Err(AllocError);
        }
        Ok(())
    }

    /// How the values of a definition begin, if it is there.
    pub fn definition(&self, index: usize) -> Option<Rows> {
        match self.definitions.get(index) {
            Some(rows) => Some(*rows),
            None => None,
        }
    }

    /// The tables, for the values of a place.
    pub fn finish(self, start: usize) -> Schema
        ensures start { result.start ≡ start }
        ensures places { result.places ≡ self.places }
        ensures beginnings { result.beginnings ≡ self.beginnings }
    {
        Schema {
            text: self.text,
            places: self.places,
            beginnings: self.beginnings,
            named_numbers: self.named_numbers,
            selections: self.selections,
            start,
        }
    }
}
