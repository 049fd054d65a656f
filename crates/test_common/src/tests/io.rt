use cv_io::{
    CalmSink, CalmSource, IoFault, Line, LineError, LineReader, MemSink, MemSource, WriteError,
};

fn is_shared<T: Send + Sync>() {}

#[test]
fn threads_may_share_the_types_of_this_crate() {
    is_shared::<(MemSource, MemSink, CalmSource, CalmSink, LineReader)>();
    is_shared::<(Line, IoFault, LineError, WriteError)>();
}
