// One record of a tape: its 128 bytes as a request and as an answer, and the slots that keep the handles between records.
pub mod layout;
pub(crate) mod request;
pub(crate) mod slots;

pub use crate::format::request::Request;
