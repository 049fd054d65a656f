use cv_base::NoMemory;
use std::alloc::Global;

/// What letters stand for, if they stand for anything. All letters that may do so are in it, in ascending order.
#[derive(Drop)]
pub struct Table<T: Copy> {
    rows: Vec<(u8, Option<T>)>,
}

impl<T: Copy> Table<T> {
    /// Letters that stand for nothing.
    pub fn of(alloc: Global, letters: &[u8]) -> Result<Table<T>, NoMemory> {
        let mut rows = Vec::new(alloc);
        for letter in letters {
            rows.push((*letter, None))?;
        }
        Ok(Table { rows })
    }

    /// All letters, each with what it stands for.
    pub fn rows(&self) -> &[(u8, Option<T>)] {
        self.rows.as_slice()
    }

    /// What a letter stands for.
    pub fn get(&self, letter: u8) -> Option<T> {
        for (other, value) in &self.rows {
            if *other == letter {
                return *value;
            }
        }
        None
    }

    /// Lets a letter of the table stand for something else, or for nothing.
    pub fn set(&mut self, letter: u8, value: Option<T>) {
        for row in self.rows.iter_mut() {
            if row.0 == letter {
                row.1 = value;
            }
        }
    }
}
