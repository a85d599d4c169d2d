//! What lies outside the store: where input comes from, where output goes, the disk, and the gate that a worker
//! passes before each call. Each is a trait, with an implementation in memory and one over the system.
#![tactic(auto)]

mod areas;
mod change;
mod disk;
mod failed;
mod fault_plan;
mod file_disk;
mod fuse_disk;
mod gate;
mod interruption;
mod mem_area;
mod mem_disk;
mod mem_sink;
mod mem_source;
mod past_bytes;
mod piece_length;
mod ram_disk;
mod reading;
mod sink;
mod source;
mod stdin_source;
mod stdout_sink;
mod unread_disk;
mod writing;

pub use areas::other_area;
pub use disk::Disk;
pub use failed::Failed;
pub use file_disk::FileDisk;
pub use fuse_disk::FuseDisk;
pub use gate::{Gate, Gone, NowGate};
pub use interruption::INTERRUPTIONS;
pub use mem_disk::MemDisk;
pub use mem_sink::MemSink;
pub use mem_source::MemSource;
pub use ram_disk::RamDisk;
pub use reading::{ReadAllFault, read_all};
pub use sink::Sink;
pub use source::Source;
pub use stdin_source::StdinSource;
pub use stdout_sink::StdoutSink;
pub use unread_disk::UnreadDisk;
pub use writing::write_all;
