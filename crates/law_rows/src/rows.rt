//! Traces that keep the rules.
ghost use Rattle.std.specs.Prelude.{◌≡◌, ℕ, List, length};
ghost use Rattle.cal_base.specs.Limits as limits;
ghost use Rattle.volume_edit.specs.Homes.{AreHomes};
ghost use Rattle.law_rows.specs.CreateFile.{create_file, creation};
ghost use Rattle.law_rows.specs.ForeignRead.{Homes, created_homes, flushed_homes, flushing, foreign_read, with_file};
ghost use Rattle.law_rows.specs.Formatted.{Sectors, first_disk, formatted, setting};
ghost use Rattle.law_rows.specs.ReadTwice.{AllKeep, read_twice};

/// A client reads the names of the root, and once more by what it then holds: each of the four steps keeps
/// the rules, whatever else the sectors of the disk are.
pub fn a_directory_is_read_twice()
    ensures { (sectors : Sectors) → AllKeep (setting 1 sectors) (read_twice sectors) }
{}

/// A client creates a file: the server commits the change, with any sectors that spell what it alters, and
/// then answers. Each of the three steps keeps the rules.
pub fn a_file_is_created()
    ensures { (sectors : Sectors) (homes : List (ℕ × List ℕ)) → AreHomes (formatted 1) creation homes → AllKeep (setting 1 sectors) (create_file sectors homes) }
{}

/// A client creates a file, opens it and writes to it under tokens; another opens it and asks for its bytes. The
/// first is asked to give them up and flushes, the server commits the flush and grants the bytes, and the other
/// reads what was written. Each of the 25 steps keeps the rules, on a disk of as many sectors as the format
/// leaves, with any sectors that spell what the two commits alter.
pub fn a_write_is_read_by_another()
    ensures { (sectors : Sectors) (homes : Homes) → length (first_disk sectors).sectors ≡ limits.sectors → AreHomes (formatted 2) creation (created_homes homes) → AreHomes with_file flushing (flushed_homes homes) → AllKeep (setting 2 sectors) (foreign_read sectors homes) }
{}
