// What a command line asks for.

use requests::fault::Detail;
use requests::request::Request;

/// A request, and the detail in which its fault is reported.
#[derive(Clone, Copy, Debug, PartialEq, Eq)]
pub struct Invocation<'a> {
    /// What is asked for.
    pub request: Request<'a>,
    /// The detail in which a fault is reported.
    pub detail: Detail,
}
