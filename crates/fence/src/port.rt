ghost use Rattle.std.specs.Prelude.{◌≡◌, ◌≤◌, ◌<◌, ◌+◌, ◌-◌, List, [], All, length, OnOk, IfErr, IfSome, IfNone, vec_len, vec_capacity};
ghost use Rattle.std.specs.Option.{option_copied};
ghost use Rattle.cal_base.specs.Limits as limits;
ghost use Rattle.cal_base.specs.Faults.{Rose};
ghost use Rattle.shared_disk.specs.Disk.{Reads, TellsWhole};
ghost use Rattle.fence.specs.Port.{PortWrites, Takes, due, accepting};
ghost use Rattle.fence.specs.Writes.{Runs};

use crate::kept_writes::KeptWrites;
use crate::port_halt::PortHalt;
use cal_base::{Sector, View};
use shared_disk::{DiskRefusal, PortDisk, Stop};
use std::marker::Model;

/// A port of one view on the shared disk.
#[derive(Drop)]
pub struct Port {
    view: View,
    accepted: u64,
    stop: Option<Stop>,
    kept: KeptWrites,
}

impl Model for Port {
    ghost use Rattle.fence.specs.Port.{PortState};

    ghost Value = { PortState };

    ghost view = { λ port. record { view = port.view.0; accepted = port.accepted; stop = port.stop; kept = port.kept } };
}

impl Port {
    /// Fences the disk to the view, and answers a port with no stop armed. `Failed` comes where the
    /// fence failed, else `Fenced` exactly where the key afterwards is another than the view.
    pub fn take<D: PortDisk>(disk: &mut D, view: View) -> Result<Port, DiskRefusal>
        ensures takes { Takes (D.means disk.old) view.0 result (D.means disk.new) }
        ensures whole { OnOk result (TellsWhole (D.means disk.new)) }
        ensures counted { IfErr result (λ why. why ≡ DiskRefusal.Failed → Rose (D.fault_count disk.old) (D.fault_count disk.new)) }
        ensures later { D.fault_count disk.old ≤ D.fault_count disk.new }
    {
        let Ok(current) = disk.fence(view) else {
            return Err(DiskRefusal::Failed);
        };
        if current != view {
            return Err(DiskRefusal::Fenced {
                mine: view,
                current,
            });
        }
        Ok(Port {
            view,
            accepted: 0,
            stop: None,
            kept: KeptWrites::none(),
        })
    }

    /// The view of the port.
    pub fn view(&self) -> View
        ensures { result.0 ≡ self.now.view }
    {
        self.view
    }

    /// How many writes were accepted since the port was taken or `arm` was last called, be it with a
    /// stop or with none; a torn write is one of them. The count stays at the last u64.
    pub fn accepted(&self) -> u64
        ensures { result ≡ self.now.accepted }
    {
        self.accepted
    }

    /// Arms a stop in place of the one that was armed, or none. Writes are counted from 0 again.
    pub fn arm(&mut self, stop: Option<Stop>)
        ensures { self.new ≡ record self.old { accepted = 0; stop = stop } }
    {
        self.accepted = 0;
        self.stop = stop;
    }

    /// Keeps from now on, behind what the list holds, each accepted write with the bytes that it put
    /// into its sector, a torn one too, as far as the list has room. Keeping takes no memory.
    pub fn keep(&mut self, list: Vec<(u32, Sector)>)
        ensures { self.new ≡ record self.old { kept = record { writes = list.items; space = vec_capacity list - vec_len list } } }
    {
        self.kept = KeptWrites::in_list(list);
    }

    /// The writes that are kept, in order.
    pub fn kept(&self) -> &[(u32, Sector)]
        ensures { result.now ≡ self.now.kept.writes }
    {
        self.kept.writes()
    }

    /// Hands out the list of `keep` with the writes that it keeps, and keeps none from then on. Without
    /// a list nothing was kept.
    pub fn hand_out(&mut self) -> Option<Vec<(u32, Sector)>>
        ensures some { IfSome result (λ list. list.items ≡ self.old.kept.writes) }
        ensures none { IfNone result (self.old.kept.writes ≡ []) }
        ensures left { self.new ≡ record self.old { kept = record { writes = []; space = 0 } } }
    {
        self.kept.hand_out()
    }

    /// Reads a sector, below 2,596, under the port's view.
    pub fn read<D: PortDisk>(
        &self,
        disk: &mut D,
        sector: u32,
        into: &mut Sector,
    ) -> Result<(), DiskRefusal>
        requires { sector < limits.sectors }
        ensures reads { Reads (D.means disk.old) self.now.view sector into.new result }
        ensures same { D.means disk.new ≡ D.means disk.old }
        ensures whole { OnOk result (TellsWhole (D.means disk.new)) }
        ensures counted { IfErr result (λ why. why ≡ DiskRefusal.Failed → Rose (D.fault_count disk.old) (D.fault_count disk.new)) }
        ensures later { D.fault_count disk.old ≤ D.fault_count disk.new }
    {
        disk.read(self.view, sector, into)
    }

    /// Writes a sector, below 2,596, under the port's view, and uses at most one of the disk's room.
    /// `Stopped` comes exactly where as many writes were accepted as the armed stop lets through: a
    /// clean stop comes before any disk call, whatever the key is; a torn one writes its own bytes to
    /// the sector, unless that is refused or fails, and is then answered as any write.
    pub fn write<D: PortDisk>(
        &mut self,
        disk: &mut D,
        sector: u32,
        from: &Sector,
    ) -> Result<(), PortHalt>
        requires within { sector < limits.sectors }
        requires room { 0 < (D.means disk.old).room }
        ensures writes { PortWrites self.old (D.means disk.old) sector from.now result self.new (D.means disk.new) }
        ensures whole { OnOk result (TellsWhole (D.means disk.new)) }
        ensures counted { IfErr result (λ why. why ≡ PortHalt.Failed → Rose (D.fault_count disk.old) (D.fault_count disk.new)) }
        ensures later { D.fault_count disk.old ≤ D.fault_count disk.new }
    {
        match self.due() {
            None => {
                disk.write(self.view, sector, from)?;
                self.accept(sector, from);
                Ok(())
            }
            Some(stop) => {
                let Some(torn) = stop.torn else {
                    return Err(PortHalt::Stopped);
                };
                disk.write(self.view, sector, &torn)?;
                self.accept(sector, &torn);
                Err(PortHalt::Stopped)
            }
        }
    }

    /// The stop that is due at the next write.
    fn due(&self) -> Option<&Stop>
        ensures { option_copied result ≡ due self.now }
    {
        match &self.stop {
            Some(stop) if u64::from(stop.after) == self.accepted => Some(stop),
            _ => None,
        }
    }

    /// Counts an accepted write, and keeps it if there is room.
    fn accept(&mut self, sector: u32, bytes: &Sector)
        ensures { self.new ≡ accepting self.old (sector, bytes.now) }
    {
        self.accepted = self.accepted.saturating_add(1);
        self.kept.put(sector, bytes);
    }

    /// Makes these writes in order, up to one that halts.
    pub fn write_all<D: PortDisk>(
        &mut self,
        disk: &mut D,
        writes: &[(u32, Sector)],
    ) -> Result<(), PortHalt>
        requires within { All (λ w. w.0 < limits.sectors) writes.now }
        requires room { length writes.now ≤ (D.means disk.old).room }
        ensures { Runs self.old (D.means disk.old) (D.fault_count disk.old) writes.now result self.new (D.means disk.new) (D.fault_count disk.new) }
    {
        for (sector, from) in writes {
            self.write(disk, *sector, from)?;
        }
        Ok(())
    }
}
