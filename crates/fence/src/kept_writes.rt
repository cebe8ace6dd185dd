ghost use Rattle.std.specs.Prelude.{◌≡◌, ◌-◌, [], vec_len, vec_capacity, IfSome, IfNone};
ghost use Rattle.fence.specs.Port.{Kept, keeping};

use cal_base::Sector;
use std::marker::Model;

/// Accepted writes in a list that was handed in, as many as it has room for. It never takes memory.
#[derive(Drop)]
pub struct KeptWrites {
    list: Option<Vec<(u32, Sector)>>,
}

impl Model for KeptWrites {
    ghost use Rattle.std.specs.Prelude.{◌-◌, [], option_map, unwrap_or, vec_len, vec_capacity};
    ghost use Rattle.fence.specs.Port.{Kept};

    ghost Value = { Kept };

    ghost view = { λ it. record { writes = unwrap_or (option_map (λ list. list.items) it.list) []; space = unwrap_or (option_map (λ list. vec_capacity list - vec_len list) it.list) 0 } };
}

impl KeptWrites {
    /// Keeps nothing.
    pub fn none() -> KeptWrites
        ensures { result ≡ record { writes = []; space = 0 } }
    {
        KeptWrites { list: None }
    }

    /// Keeps writes behind those of the list, in the room that it has.
    pub fn in_list(list: Vec<(u32, Sector)>) -> KeptWrites
        ensures { result ≡ record { writes = list.items; space = vec_capacity list - vec_len list } }
    {
        KeptWrites { list: Some(list) }
    }

    /// The writes that are kept, in order.
    pub fn writes(&self) -> &[(u32, Sector)]
        ensures { result.now ≡ self.now.writes }
    {
        match &self.list {
            Some(list) => list.as_slice(),
            None => &[],
        }
    }

    /// Hands out the list, and keeps nothing from then on.
    pub fn hand_out(&mut self) -> Option<Vec<(u32, Sector)>>
        ensures some { IfSome result (λ list. list.items ≡ self.old.writes) }
        ensures none { IfNone result (self.old.writes ≡ []) }
        ensures left { self.new ≡ record { writes = []; space = 0 } }
    {
        self.list.take()
    }

    /// Keeps one write more, if there is room.
    pub fn put(&mut self, sector: u32, bytes: &Sector)
        ensures { self.new ≡ keeping self.old (sector, bytes.now) }
    {
        if let Some(list) = &mut self.list {
            put_if_room(list, sector, bytes);
        }
    }
}

/// Puts a write at the end of a list that has room for it.
fn put_if_room(list: &mut Vec<(u32, Sector)>, sector: u32, bytes: &Sector)
    ensures { keeping (record { writes = list.old.items; space = vec_capacity list.old - vec_len list.old }) (sector, bytes.now) ≡ record { writes = list.new.items; space = vec_capacity list.new - vec_len list.new } }
{
    if list.len() < list.capacity() {
        list.push_reserved((sector, *bytes));
    }
}
