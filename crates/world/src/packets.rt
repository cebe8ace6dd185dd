ghost use Rattle.std.specs.Prelude.{◌≡◌, ◌<◌, ◌++◌, ◌∷◌, [], true, false, is_some, IfOk, OnOk, length, option_map, replicate, slice_get, slice_set, Some as Given};
ghost use Rattle.world.specs.World.{flag_of};

use cal_base::Oom;
use session::Packet;
use std::alloc::Global;

/// The packets that were sent, by number, and which of them were delivered.
#[derive(Drop)]
pub(crate) struct Packets {
    pub(crate) sent: Vec<Packet>,
    pub(crate) delivered: Vec<bool>,
}

impl Packets {
    /// No packets.
    pub(crate) fn new(alloc: Global) -> Packets
        ensures sent { result.sent.items ≡ [] }
        ensures delivered { result.delivered.items ≡ [] }
    {
        Packets {
            sent: Vec::new(alloc),
            delivered: Vec::new(alloc),
        }
    }

    /// How many were sent.
    pub(crate) fn len(&self) -> u64
        ensures { result ≡ length self.now.sent.items }
    {
        self.sent.len() as u64
    }

    /// Whether the packet of a number was sent.
    pub(crate) fn is_sent(&self, number: u64) -> bool
        ensures { result ≡ is_some (slice_get self.now.sent.items number) }
    {
        self.get(number).is_some()
    }

    /// The packet of a number, if it was sent.
    pub(crate) fn get(&self, number: u64) -> Option<&Packet>
        ensures { option_map (λ packet. packet.now) result ≡ slice_get self.now.sent.items number }
    {
        self.sent.get(number as usize)
    }

    /// Whether a packet was delivered.
    pub(crate) fn is_delivered(&self, number: u64) -> bool
        ensures { result ≡ flag_of (slice_get self.now.delivered.items number) }
    {
        match self.delivered.get(number as usize) {
            None => false,
            Some(delivered) => *delivered,
        }
    }

    /// The packet of a number once more; the bytes of its body are not copied.
    pub(crate) fn share(&self, number: u64) -> Result<Packet, Oom>
        requires { is_some (slice_get self.now.sent.items number) ≡ true }
        ensures { IfOk result (λ packet. slice_get self.now.sent.items number ≡ Given packet) }
    {
        match self.get(number) {
            None => unreachable!(),
            Some(packet) => packet.share(),
        }
    }

    /// Marks a packet as delivered.
    pub(crate) fn deliver(&mut self, number: u64)
        requires { number < length self.old.delivered.items }
        ensures sent { self.new.sent.items ≡ self.old.sent.items }
        ensures delivered { self.new.delivered.items ≡ slice_set self.old.delivered.items number true }
    {
        self.delivered[number as usize] = true;
    }

    /// Keeps the packets of a step, in order.
    pub(crate) fn keep(&mut self, packets: &[Packet]) -> Result<(), Oom>
        ensures sent { OnOk result (self.new.sent.items ≡ self.old.sent.items ++ packets.now) }
        ensures delivered { OnOk result (self.new.delivered.items ≡ self.old.delivered.items ++ replicate (length packets.now) false) }
        ensures even { length self.old.delivered.items ≡ length self.old.sent.items → length self.new.delivered.items ≡ length self.new.sent.items }
    {
        for packet in packets {
            let copy = packet.share()?;
            self.keep_one(copy)?;
        }
        Ok(())
    }

    /// Keeps one packet. Room for its flag is made before.
    fn keep_one(&mut self, packet: Packet) -> Result<(), Oom>
        ensures sent { OnOk result (self.new.sent.items ≡ self.old.sent.items ++ packet ∷ []) }
        ensures delivered { OnOk result (self.new.delivered.items ≡ self.old.delivered.items ++ false ∷ []) }
        ensures even { length self.old.delivered.items ≡ length self.old.sent.items → length self.new.delivered.items ≡ length self.new.sent.items }
    {
        self.delivered.reserve(1)?;
        self.sent.push(packet)?;
        self.delivered.push(false).unwrap();
        Ok(())
    }
}
