// The reader that keeps the lent run file and its place in it, with thin methods over the functions
// on slice and number: the form that document 01 names.
#![tactic(auto)]

ghost use Rattle.std.specs.Prelude.{◌≡◌};
ghost use Rattle.record.specs.Read.{numbered_record};
ghost use Rattle.record.specs.Record.{record_at};

use record::Record;

// A run file, and an offset in it.
#[derive(Clone, Copy)]
pub struct Reader<'a> {
    pub run: &'a [u8],
    pub at: usize,
}

impl<'a> Reader<'a> {
    // A reader at an offset.
    pub fn new(run: &'a [u8], at: usize) -> Self
        ensures { (result.run ≡ run.entry) × (result.at ≡ at) }
    {
        Self { run, at }
    }

    // Its offset.
    pub fn place(self) -> usize
        ensures { result ≡ self.entry.at }
    {
        self.at
    }

    // What stands at the reader's place.
    pub fn next(self) -> Record
        ensures { numbered_record result ≡ record_at self.entry.run.now self.entry.at }
    {
        record::record_at(self.run, self.at)
    }

    // The same file, at another offset.
    pub fn moved(self, at: usize) -> Self
        ensures { (result.run ≡ self.entry.run) × (result.at ≡ at) }
    {
        Self { at, ..self }
    }
}

// The record at an offset, through a reader; whoever calls it holds no Reader.
pub fn read_at(run: &[u8], at: usize) -> Record
    ensures { numbered_record result ≡ record_at run.now at }
{
    Reader::new(run, at).next()
}
