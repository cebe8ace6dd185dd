use crate::cluster::{Cluster, Formatted};
use crate::given::Given;
use crate::reading::{Format, Happening, Line};
use cal_base::{Oom, ServerId};
use std::alloc::Global;

/// A row: nothing runs until its disk is formatted.
#[derive(Drop)]
pub(crate) struct Row {
    alloc: Global,
    cluster: Option<Cluster>,
}

impl Row {
    /// A row without a line.
    pub(crate) fn new(alloc: Global) -> Row {
        Row {
            alloc,
            cluster: None,
        }
    }

    /// Plays a line.
    pub(crate) fn play(&mut self, line: Line) -> Result<Given, Oom> {
        match line {
            Line::Ends => {
                self.cluster = None;
                Ok(Given::RowEnd)
            }
            Line::Format(format) => self.format(format),
            Line::Happens(happening) => self.go_on(happening),
        }
    }

    /// Formats a fresh disk.
    fn format(&mut self, format: Format) -> Result<Given, Oom> {
        match Cluster::format(self.alloc, format.clients, format.window)? {
            Formatted::Serves(cluster) => {
                self.cluster = Some(cluster);
                Ok(Given::Nothing)
            }
            Formatted::Halts(halted) => Ok(Given::Halt(ServerId::A, halted)),
        }
    }

    /// Goes on with the servers on the disk, if there is one.
    fn go_on(&mut self, happening: Happening) -> Result<Given, Oom> {
        match &mut self.cluster {
            Some(cluster) => cluster.play(happening),
            None => Ok(Given::Refused),
        }
    }
}
