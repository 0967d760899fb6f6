// The protocol of git-annex's external special remotes: its lines, its messages, and what a conversation is.
// Nothing here knows a journal. https://git-annex.branchable.com/design/external_special_remote_protocol/
#![tactic(auto)]

pub mod final_line;
pub mod laws;
pub mod turn;

pub use final_line::Final;
pub use turn::Turn;
