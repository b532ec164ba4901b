//! The steps of a reader: counts, records, and whole sections, each judged as it is read.
ghost use Rattle.std.specs.Prelude.{◌≡◌, ◌+◌, ◌-◌, ◌*◌, ◌<◌, ◌≤◌, length, Some, None, Ok, Err};
ghost use Rattle.files.specs.declared.faults.FileFault.TheVariants.{Broken};
ghost use Rattle.files.specs.Faults.{count_at, count_fault, fault_at, record_fault, records_fault, section_fault};
ghost use Rattle.files.specs.Parts.{Part, Passed};
ghost use Rattle.files.specs.Sections.{bytes_each, carrier, record_in};

use crate::faults::{Fault, FileFault};
use crate::reader::Reader;
use crate::records::{Records, SessionRecord, Stretch};
use crate::section::Section;

// Each step says that the file stays, since a `&mut self` may change every field.
impl<'a> Reader<'a> {
    /// A reader at the start of a file.
    pub fn new(file: &'a [u8]) -> Reader<'a>
        ensures { (result.file ≡ file.entry) × (result.place ≡ 0) }
    {
        Reader { file, place: 0 }
    }

    /// The count that comes next, if its two bytes are there.
    pub fn count(&mut self) -> Option<u16>
        ensures same { self.new.file ≡ self.old.file }
        ensures value { elim result [
          | Some n ↦ (n ≡ count_at self.old.file.now self.old.place)
              × (self.old.place + 2 ≤ length self.old.file.now)
              × (self.new.place ≡ self.old.place + 2)
          | None ↦ (length self.old.file.now < self.old.place + 2)
              × (self.new.place ≡ self.old.place)
        ] }
    {
        let bytes = self.file[self.place..].first_chunk()?;
        self.place += 2;
        Some(u16::from_le_bytes(*bytes))
    }

    /// The next `size` bytes as they stand in the file, if they are all there.
    pub fn record(&mut self, size: usize) -> Option<Stretch<'a>>
        ensures same { self.new.file ≡ self.old.file }
        ensures part { elim result [
          | Some s ↦ Part self.old.file self.old.place size s
              × (self.new.place ≡ self.old.place + size)
          | None ↦ (length self.old.file.now < self.old.place + size)
              × (self.new.place ≡ self.old.place)
        ] }
    {
        let whole = Stretch {
            bytes: self.file,
            place: 0,
        };
        let stretch = whole.part(self.place, size)?;
        self.place += size;
        Some(stretch)
    }

    /// The count of a section, if it is there and the section allows it.
    fn section_count(&mut self, section: Section) -> Result<u16, Fault>
        ensures same { self.new.file ≡ self.old.file }
        ensures judged { elim result [
          | Ok n ↦ (count_fault section self.old.file.now self.old.place ≡ None)
              × (n ≡ count_at self.old.file.now self.old.place)
              × (self.new.place ≡ self.old.place + 2)
          | Err f ↦ count_fault section self.old.file.now self.old.place ≡ Some f
        ] }
    {
        let place = self.place;
        match self.count() {
            Some(count) if section.allows(count) => Ok(count),
            Some(_) => Err(section.fault_at(0, place, FileFault::OutOfRange)),
            None => Err(section.fault_at(0, self.file.len(), FileFault::Broken)),
        }
    }

    /// The next record of a section, the one with this number, if it is there and nothing is wrong with it.
    fn section_record(&mut self, section: Section, number: u16) -> Result<SessionRecord<'a>, Fault>
        ensures same { self.new.file ≡ self.old.file }
        ensures judged { elim result [
          | Ok x ↦ (record_fault section self.old.file.now self.old.place number ≡ None)
              × Part self.old.file self.old.place (bytes_each section) (carrier x)
              × (x ≡ record_in section (carrier x))
              × (self.new.place ≡ self.old.place + bytes_each section)
          | Err f ↦ record_fault section self.old.file.now self.old.place number ≡ Some f
        ] }
    {
        let place = self.place;
        // By cases: with `ok_or`, tried, the proof does not close.
        let Some(stretch) = self.record(section.record_size()) else {
            return Err(section.fault_at(number, self.file.len(), FileFault::Broken));
        };
        let found = section.record(stretch);
        found
            .check()
            .map_err(|kind| section.fault_at(number, place, kind))?;
        Ok(found)
    }

    /// Goes past the records of a section, if they are there and nothing is wrong with them.
    #[tactic(auto, using(crate::proofs::Walks::records_go))]
    fn section_records(&mut self, section: Section, count: u16) -> Result<(), Fault>
        ensures same { self.new.file ≡ self.old.file }
        ensures judged { elim result [
          | Ok _ ↦ (records_fault section self.old.file.now self.old.place 1 count ≡ None)
              × (self.new.place ≡ self.old.place + count * bytes_each section)
          | Err f ↦ records_fault section self.old.file.now self.old.place 1 count ≡ Some f
        ] }
    {
        for number in 1..=count {
            self.section_record(section, number)?;
        }
        Ok(())
    }

    /// The section that comes next: its records, if the section is there and nothing is wrong with it.
    pub fn section(&mut self, section: Section) -> Result<Records<'a>, Fault>
        ensures same { self.new.file ≡ self.old.file }
        ensures judged { elim result [
          | Ok s ↦ Passed section self.old.file self.old.place s self.new.place
          | Err f ↦ section_fault section self.old.file.now self.old.place ≡ Some f
        ] }
    {
        let count = self.section_count(section)?;
        let file = self.file;
        let place = self.place;
        self.section_records(section, count)?;
        let bytes = &file[place..self.place];
        Ok(Records {
            count,
            stretch: Stretch { bytes, place },
        })
    }

    /// The end of the file, behind a last section of `count` records, if no bytes are left over.
    pub fn end(&self, section: Section, count: u16) -> Result<(), Fault>
        ensures { elim result [
          | Ok _ ↦ self.now.place ≡ length self.now.file.now
          | Err f ↦ (self.now.place < length self.now.file.now)
              × (f ≡ fault_at section count self.now.place Broken)
        ] }
    {
        if self.place < self.file.len() {
            return Err(section.fault_at(count, self.place, FileFault::Broken));
        }
        Ok(())
    }
}
