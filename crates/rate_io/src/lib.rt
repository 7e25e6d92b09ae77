//! What reaches outside, as traits: a source and a sink of bytes, files by name, a link to a peer,
//! a listener for links, and the clock.
//!
//! Each object keeps a history of its calls (`specs/Events.antt`), which takes no memory: what each read handed out or that it
//! answered the end, which pieces were written, which moments a clock told, which files were asked for with the reads of their
//! content. A link tells moments too, so that its reads, moments and writes stand in one order. The real ones keep
//! it as those in memory do, so what is proved of a history is proved of the real program. Each has a count of faults
//! besides that never falls, and a call answers `Failed` only where the count rose in that call.
//!
//! What contracts see of a link is one record (`specs/Links.antt`): its history, what is left and was written, and whether it can
//! still fail. A clock, and a link, has two bounds between which the moments lie that it tells; that of the system has none.
//!
//! What a source has left, what a sink was written and what a file contains are told where the object knows them: the versions
//! in memory tell, the adapters over the real input, output, files and streams don't. That std's read and write do what they
//! answer is trusted.
#![tactic(auto)]

mod clock;
mod files;
mod history;
mod link;
mod listen;
mod listen_history;
mod mem_files;
mod mem_link;
mod mem_listen;
mod mem_sink;
mod mem_source;
mod real;
mod sink;
mod source;
mod stream_link;
mod stream_listen;
mod sure;
mod whole;

pub use clock::{Clock, FixedClock, HostClock};
pub use files::{FileFault, Files};
pub use history::{Call, FileCall, FileHistory, History};
pub use link::Link;
pub use listen::Listen;
pub use listen_history::{ListenCall, ListenHistory};
pub use mem_files::{MemFile, MemFiles};
pub use mem_link::MemLink;
pub use mem_listen::MemListen;
pub use mem_sink::MemSink;
pub use mem_source::MemSource;
pub use real::{HostFiles, ReaderSource, WriterSink};
pub use sink::Sink;
pub use source::{Failed, Source};
pub use stream_link::StreamLink;
pub use stream_listen::StreamListen;
pub use sure::{SureSink, SureSource};
pub use whole::read_up_to;
