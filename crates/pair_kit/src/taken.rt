use ann_key::Bytes;
use kit_serve::kit::Call;

/// A line that a kit took, without its byte 10, and the call that its remote had for it.
#[derive(Drop)]
pub struct Taken {
    pub line: Bytes,
    pub call: Option<Call>,
}
