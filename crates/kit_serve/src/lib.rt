// Serves a remote to a host over bytes that come and bytes that go.
#![tactic(auto)]

mod describer;
mod end;
pub mod kit;
mod line_sink;
mod serving;
mod streams;
mod telling;
mod voice;
mod writing;

pub use describer::{Describer, SelfDescribed, Undescribed};
pub use end::End;
pub use line_sink::LineSink;
pub use serving::{
    LONGEST_LINE, READ_SIZE, Served, fill, hear, serve, serve_described, talk, turn,
};
pub use streams::{Ear, Mouth};
pub use telling::{NotTold, SharedSink, Teller, share};
pub use voice::{KitVoice, Voice};
pub use writing::{write_line, write_version};
