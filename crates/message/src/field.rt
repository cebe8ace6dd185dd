ghost use Rattle.std.specs.Prelude.{◌≡◌, ◌<◌, ◌≤◌, Bool, ℕ};
ghost use Rattle.message.specs.Decoding.{Reads};
ghost use Rattle.message.specs.Reading.{byte_field, number_field};
ghost use Rattle.message.specs.Field.{call_number_at, class_at, class_of, client_at, client_of, entry_kind_of, flag_at, flag_of, fresh_of, from_one, held_of, hold_of, inode_at, inode_of, kept_of, left_of, next_class_of, one_to, size_at, up_to};

use crate::input::Input;
use crate::stop::Stop;
use cal_base::{CLIENTS, ClientId, EntryKind, Ino};
use token_kind::{Class, Hold};

impl<'a> Input<'a> {
    /// The number of a call, at least 1.
    pub(crate) fn call_number(&mut self) -> Result<u64, Stop>
        ensures { Reads result self.new.rest.now (call_number_at self.old.rest.now) }
    {
        let left = self.rest.len();
        let number = self.u64()?;
        if 0 < number {
            Ok(number)
        } else {
            Err(Stop::Outside { left })
        }
    }

    pub(crate) fn inode(&mut self) -> Result<Ino, Stop>
        ensures { Reads result self.new.rest.now (inode_at self.old.rest.now) }
    {
        let left = self.rest.len();
        let number = self.u32()?;
        if number < 512 {
            Ok(Ino(number))
        } else {
            Err(Stop::Outside { left })
        }
    }

    pub(crate) fn client(&mut self) -> Result<ClientId, Stop>
        ensures { Reads result self.new.rest.now (client_at self.old.rest.now) }
    {
        let left = self.rest.len();
        let number = self.byte()?;
        if number < CLIENTS {
            Ok(ClientId(number))
        } else {
            Err(Stop::Outside { left })
        }
    }

    /// A size in bytes, up to a limit.
    pub(crate) fn size(&mut self, limit: u32) -> Result<u32, Stop>
        ensures { Reads result self.new.rest.now (size_at limit self.old.rest.now) }
    {
        let left = self.rest.len();
        let number = self.u32()?;
        if number <= limit {
            Ok(number)
        } else {
            Err(Stop::Outside { left })
        }
    }

    /// A count of one byte, up to a limit.
    pub(crate) fn count(&mut self, limit: u8) -> Result<u8, Stop>
        ensures { Reads result self.new.rest.now (byte_field (up_to limit) self.old.rest.now) }
    {
        let left = self.rest.len();
        let number = self.byte()?;
        if number <= limit {
            Ok(number)
        } else {
            Err(Stop::Outside { left })
        }
    }

    /// A count of one byte, from 1 up to a limit.
    pub(crate) fn count_from_one(&mut self, limit: u8) -> Result<u8, Stop>
        ensures { Reads result self.new.rest.now (byte_field (one_to limit) self.old.rest.now) }
    {
        let left = self.rest.len();
        let number = self.byte()?;
        if 0 < number && number <= limit {
            Ok(number)
        } else {
            Err(Stop::Outside { left })
        }
    }

    pub(crate) fn flag(&mut self) -> Result<bool, Stop>
        ensures { Reads result self.new.rest.now (flag_at self.old.rest.now) }
    {
        let left = self.rest.len();
        let number = self.byte()?;
        flag_of(number).ok_or(Stop::Outside { left })
    }

    pub(crate) fn entry_kind(&mut self) -> Result<EntryKind, Stop>
        ensures { Reads result self.new.rest.now (byte_field entry_kind_of self.old.rest.now) }
    {
        let left = self.rest.len();
        let number = self.byte()?;
        entry_kind_of(number).ok_or(Stop::Outside { left })
    }

    pub(crate) fn class(&mut self) -> Result<Class, Stop>
        ensures { Reads result self.new.rest.now (class_at self.old.rest.now) }
    {
        let left = self.rest.len();
        let number = self.byte()?;
        class_of(number).ok_or(Stop::Outside { left })
    }

    /// A class behind those that came before, up to a last one.
    pub(crate) fn next_class(&mut self, last: u8, before: u8) -> Result<Class, Stop>
        ensures { Reads result self.new.rest.now (byte_field (next_class_of last before) self.old.rest.now) }
    {
        let left = self.rest.len();
        let number = self.byte()?;
        next_class_of(last, before, number).ok_or(Stop::Outside { left })
    }

    /// The hold of a grant.
    pub(crate) fn hold(&mut self, class: Class) -> Result<Hold, Stop>
        ensures { Reads result self.new.rest.now (byte_field (hold_of class) self.old.rest.now) }
    {
        let left = self.rest.len();
        let number = self.byte()?;
        hold_of(class, number).ok_or(Stop::Outside { left })
    }

    /// A hold that a client has: Read or Write.
    pub(crate) fn held(&mut self, class: Class) -> Result<Hold, Stop>
        ensures { Reads result self.new.rest.now (byte_field (held_of class) self.old.rest.now) }
    {
        let left = self.rest.len();
        let number = self.byte()?;
        held_of(class, number).ok_or(Stop::Outside { left })
    }

    /// What a client keeps of a hold.
    pub(crate) fn kept(&mut self, class: Class) -> Result<Hold, Stop>
        ensures { Reads result self.new.rest.now (byte_field (kept_of class) self.old.rest.now) }
    {
        let left = self.rest.len();
        let number = self.byte()?;
        kept_of(class, number).ok_or(Stop::Outside { left })
    }

    /// What the flush of this number leaves of a hold.
    pub(crate) fn left(&mut self, class: Class, flush: u64) -> Result<Hold, Stop>
        ensures { Reads result self.new.rest.now (byte_field (left_of class flush) self.old.rest.now) }
    {
        let left = self.rest.len();
        let number = self.byte()?;
        left_of(class, flush, number).ok_or(Stop::Outside { left })
    }

    /// Whether a granted token is fresh.
    pub(crate) fn fresh(&mut self, class: Class) -> Result<bool, Stop>
        ensures { Reads result self.new.rest.now (byte_field (fresh_of class) self.old.rest.now) }
    {
        let left = self.rest.len();
        let number = self.byte()?;
        fresh_of(class, number).ok_or(Stop::Outside { left })
    }
}

#[tactic(auto, unfolding(crate::specs::Field::flag_of))]
fn flag_of(number: u8) -> Option<bool>
    ensures { result ≡ flag_of number }
{
    match number {
        0 => Some(false),
        1 => Some(true),
        _ => None,
    }
}

#[tactic(auto, unfolding(crate::specs::Field::entry_kind_of))]
fn entry_kind_of(number: u8) -> Option<EntryKind>
    ensures { result ≡ entry_kind_of number }
{
    match number {
        1 => Some(EntryKind::File),
        2 => Some(EntryKind::Directory),
        _ => None,
    }
}

#[tactic(auto, unfolding(crate::specs::Field::class_of))]
fn class_of(number: u8) -> Option<Class>
    ensures { result ≡ class_of number }
{
    match number {
        1 => Some(Class::Names),
        2 => Some(Class::Data),
        3 => Some(Class::Attr),
        4 => Some(Class::Open),
        _ => None,
    }
}

fn next_class_of(last: u8, before: u8, number: u8) -> Option<Class>
    ensures { result ≡ next_class_of last before number }
{
    if before < number && number <= last {
        class_of(number)
    } else {
        None
    }
}

#[tactic(auto, unfolding(crate::specs::Field::hold_of))]
fn hold_of(class: Class, number: u8) -> Option<Hold>
    ensures { result ≡ hold_of class number }
{
    if number == 0 {
        Some(Hold::None)
    } else if number == 1 {
        Some(Hold::Read)
    } else if number == 2 && class.has_write() {
        Some(Hold::Write)
    } else {
        None
    }
}

fn held_of(class: Class, number: u8) -> Option<Hold>
    ensures { result ≡ held_of class number }
{
    if number == 0 {
        None
    } else {
        hold_of(class, number)
    }
}

#[tactic(auto, unfolding(crate::specs::Field::kept_of))]
fn kept_of(class: Class, number: u8) -> Option<Hold>
    ensures { result ≡ kept_of class number }
{
    if number == 0 {
        Some(Hold::None)
    } else if number == 1 && class.has_write() {
        Some(Hold::Read)
    } else {
        None
    }
}

fn left_of(class: Class, flush: u64, number: u8) -> Option<Hold>
    ensures { result ≡ left_of class flush number }
{
    if flush == 0 && 0 < number {
        None
    } else {
        hold_of(class, number)
    }
}

fn fresh_of(class: Class, number: u8) -> Option<bool>
    ensures { result ≡ fresh_of class number }
{
    if number == 0 && !class.has_write() {
        None
    } else {
        flag_of(number)
    }
}
