use cv_base::Reason;
use std::alloc::Global;

/// What is found for a package: names, versions and ids. `fixed` is `none` if no version has the fix.
#[derive(Clone, Copy)]
pub struct Found<'a> {
    pub package: &'a str,
    pub version: &'a str,
    pub feed: &'a str,
    pub advisory: &'a str,
    pub fixed: &'a str,
}

/// The text that the program prints. Once there is no memory for a part of it, it has failed.
#[derive(Drop)]
pub struct Lines {
    alloc: Global,
    text: String,
    failed: bool,
}

impl Lines {
    /// No text yet.
    pub fn new(alloc: Global) -> Lines {
        Lines {
            alloc,
            text: String::new(alloc),
            failed: false,
        }
    }

    /// What was added so far.
    pub fn as_str(&self) -> &str {
        self.text.as_str()
    }

    /// Whether a part is missing.
    pub fn has_failed(&self) -> bool {
        self.failed
    }

    /// Says that a part is missing.
    pub fn fail(&mut self) {
        self.failed = true;
    }

    /// A word.
    pub fn word(&mut self, word: &str) {
        if self.text.push_str(word).is_err() {
            self.failed = true;
        }
    }

    /// A word, and a number after it.
    pub fn number(&mut self, word: &str, number: u64) {
        self.part(format!(in self.alloc; "{word}{number}").ok());
    }

    /// A part of the text, if there was memory for it.
    fn part(&mut self, part: Option<String>) {
        match part {
            Some(part) => self.word(part.as_str()),
            None => self.failed = true,
        }
    }

    /// A word, and a letter after it.
    pub fn letter(&mut self, word: &str, letter: u8) {
        self.word(word);
        if self.text.push(char::from(letter)).is_err() {
            self.failed = true;
        }
    }

    /// An image waits for a layer.
    pub fn pending(&mut self, image: u8, layer: u8) {
        self.letter(" | ", image);
        self.letter(" waits for ", layer);
    }

    /// An image is scanned, and its findings follow.
    pub fn good(&mut self, image: u8, generation: u64) {
        self.letter(" | ", image);
        self.number(" good at ", generation);
    }

    /// An image cannot be scanned, for a reason that names a layer or a line by its index.
    pub fn bad(&mut self, image: u8, why: &str, index: u64) {
        self.letter(" | ", image);
        self.number(why, index);
    }

    /// A layer of an image has another seal than the stated one: that of the layer of a letter.
    pub fn bad_seal(&mut self, image: u8, index: u64, found: u8) {
        self.bad(image, " bad: another seal at ", index);
        self.letter(", that of ", found);
    }

    /// Layers, each by its letter, and the signs of their seals, if one is stated.
    pub fn layers(&mut self, word: &str, layers: &[u8], seals: &[u8]) {
        self.letters(word, layers);
        if seals.iter().any(|sign| *sign != b'.') {
            self.letters(" sealed", seals);
        }
    }

    fn letters(&mut self, word: &str, letters: &[u8]) {
        self.word(word);
        for letter in letters {
            self.letter(" ", *letter);
        }
    }

    /// A finding.
    pub fn finding(&mut self, found: Found<'_>) {
        self.word(", ");
        self.word(found.package);
        self.word(" ");
        self.word(found.version);
        self.word(" ");
        self.word(found.feed);
        self.word(" ");
        self.word(found.advisory);
        self.word(" fixed in ");
        self.word(found.fixed);
    }

    /// A row of a notification.
    pub fn row(&mut self, image: u8, reason: Reason, found: Found<'_>) {
        self.letter("; ", image);
        self.word(match reason {
            Reason::Added => " added",
            Reason::Removed => " removed",
            Reason::Changed => " changed",
        });
        self.finding(found);
    }

    /// The reply to an update.
    pub fn updated(&mut self, generation: u64, rows: u64) {
        self.part(format!(in self.alloc; "updated to {generation} with rows: {rows}").ok());
    }

    /// A notification, with how many rows it has.
    pub fn head(&mut self, number: u64, rows: u64) {
        self.part(format!(in self.alloc; " {number}/{rows}").ok());
    }
}
