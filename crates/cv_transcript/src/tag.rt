ghost use Rattle.std.specs.Prelude.{◌≡◌, Some};
ghost use Rattle.cv_transcript.specs.Entry.{entry_data};
ghost use Rattle.cv_transcript.specs.Tag.{entry_tag, tag_of};
ghost use Rattle.cv_transcript.specs.declared.entry.Entry.{Entry};

/// The tag of an entry's JSON is the entry's own.
pub fn tag_laws()
    ensures { (entry : Entry) → tag_of (entry_data entry) ≡ Some (entry_tag entry) }
{}
