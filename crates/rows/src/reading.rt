// A text, cut into rows.
use crate::fault::{LineFault, RowFault};
use crate::line::{Line, Setting, read_line};
use std::alloc::Global;

/// A line that sets something.
#[derive(Clone, Copy)]
pub struct SettingLine<'a> {
    /// The first line of the text has the number 1.
    pub number: usize,
    pub setting: Setting<'a>,
}

/// The lines of a row, behind those that are given to it.
#[derive(Drop)]
pub struct Draft<'a> {
    pub name: &'a str,
    pub lines: Vec<SettingLine<'a>>,
}

/// The rows of a text, in its order. What their lines say is not looked at, so a long text that is written in short
/// takes no memory yet.
pub fn read_drafts(alloc: Global, text: &str) -> Result<Vec<Draft<'_>>, RowFault> {
    let mut reader = Reader {
        alloc,
        given: Vec::new(alloc),
        drafts: Vec::new(alloc),
        place: Place::Nothing,
    };
    for (before, line) in text.lines().enumerate() {
        let number = before.saturating_add(1);
        if let Err(fault) = reader.take(number, line) {
            let line = number;
            return Err(RowFault { line, fault });
        }
    }
    Ok(reader.drafts)
}

// What the lines that follow belong to.
#[derive(Clone, Copy)]
enum Place {
    Nothing,
    Given,
    Row,
}

#[derive(Drop)]
struct Reader<'a> {
    alloc: Global,
    // What is given to each row that follows.
    given: Vec<SettingLine<'a>>,
    drafts: Vec<Draft<'a>>,
    place: Place,
}

impl<'a> Reader<'a> {
    fn take(&mut self, number: usize, line: &'a str) -> Result<(), LineFault> {
        match read_line(line) {
            Some(Line::Nothing) => Ok(()),
            Some(Line::Given) => {
                self.given.clear();
                self.place = Place::Given;
                Ok(())
            }
            Some(Line::Row(name)) => self.begin(number, name),
            Some(Line::Setting(setting)) => self.add(SettingLine { number, setting }),
            None => Err(LineFault::Unknown),
        }
    }

    // Begins a row, with what is given to it.
    fn begin(&mut self, number: usize, name: &'a str) -> Result<(), LineFault> {
        if self.drafts.iter().any(|draft| draft.name == name) {
            return Err(LineFault::SameName);
        }
        let mut lines = self.given.to_vec(self.alloc)?;
        let setting = Setting::Name(name);
        lines.push(SettingLine { number, setting })?;
        self.drafts.push(Draft { name, lines })?;
        self.place = Place::Row;
        Ok(())
    }

    // Adds a line to what is given, or to the last row.
    fn add(&mut self, line: SettingLine<'a>) -> Result<(), LineFault> {
        match (self.place, self.drafts.last_mut()) {
            (Place::Given, _) => self.given.push(line)?,
            (Place::Row, Some(draft)) => draft.lines.push(line)?,
            _ => return Err(LineFault::NoRow),
        }
        Ok(())
    }
}
