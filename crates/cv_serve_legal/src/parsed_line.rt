use cv_request::{Request, RequestError};

/// What becomes of a line: the request that it is, or why it is refused. Lines are numbered from 1.
#[derive(Debug, Drop)]
pub struct ParsedLine {
    pub line: u64,
    pub answer: Result<Request, RequestError>,
}

/// A request with the number of its line.
#[derive(Debug, Drop)]
pub struct Requested {
    pub line: u64,
    pub request: Request,
}
