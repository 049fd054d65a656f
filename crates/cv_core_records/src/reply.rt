ghost use Rattle.std.specs.Prelude.{◌≡◌};

use cv_base::{Digest, NoMemory, Seq};
use std::alloc::AllocError;

/// What an event leads to, with the reply to it, or that memory ran out.
pub type Replied<T> = Result<(T, Reply), NoMemory>;

/// What the machine replies to an event.
#[derive(Debug, PartialEq, Eq, Drop)]
pub enum Reply {
    /// The image is registered now.
    Registered,
    /// The image was registered with these layers and these seals before.
    Already,
    /// The image was registered with other layers or other seals before. It keeps those.
    Conflict {
        kept: Seq<Digest>,
        kept_seals: Seq<Option<Digest>>,
    },
    /// As many images are registered as there may be.
    TooManyImages,
    /// The image is not registered any more.
    Dropped,
    /// The image was not registered.
    NotRegistered,
    /// The layer is the worker's now.
    Claimed,
    /// The layer is claimed already, or indexed.
    Taken,
    /// No registered image names the layer, and it is not claimed.
    Unwanted,
    /// The layer is indexed now.
    Entered,
    /// The layer was the worker's, but no registered image names it any more.
    Discarded,
    /// The layer waits for a worker again.
    Requeued,
    /// The layer is not the worker's.
    NotClaimed,
    /// The feed has the new records. The update or the patch raises this number of rows; if it raises none, there is no notification.
    Updated {
        generation: u64,
        rows: u64,
    },
    /// There are as many feeds as there may be.
    TooManyFeeds,
    /// There is no feed of that name to patch.
    NoFeed,
    /// The patch is of another generation of the feed than that of its last update, which is `kept`.
    StaleBase {
        kept: u64,
    },
    /// With the patch the feed would have `would` records, which is more than it may have.
    TooManyRecords {
        would: u64,
    },
    /// The notification is gone.
    Acked,
    /// There is no notification of that number.
    NoNotification,
}

/// A copy is equal to its source. Only the layers and seals of a conflict take memory.
impl Clone for Reply {
    ghost is_clone = { λ x y. y ≡ x };

    fn clone(&self) -> Result<Reply, AllocError> {
        Ok(match self {
            Reply::Registered => Reply::Registered,
            Reply::Already => Reply::Already,
            Reply::Conflict { kept, kept_seals } => Reply::Conflict {
                kept: kept.clone()?,
                kept_seals: kept_seals.clone()?,
            },
            Reply::TooManyImages => Reply::TooManyImages,
            Reply::Dropped => Reply::Dropped,
            Reply::NotRegistered => Reply::NotRegistered,
            Reply::Claimed => Reply::Claimed,
            Reply::Taken => Reply::Taken,
            Reply::Unwanted => Reply::Unwanted,
            Reply::Entered => Reply::Entered,
            Reply::Discarded => Reply::Discarded,
            Reply::Requeued => Reply::Requeued,
            Reply::NotClaimed => Reply::NotClaimed,
            Reply::Updated { generation, rows } => Reply::Updated {
                generation: *generation,
                rows: *rows,
            },
            Reply::TooManyFeeds => Reply::TooManyFeeds,
            Reply::NoFeed => Reply::NoFeed,
            Reply::StaleBase { kept } => Reply::StaleBase { kept: *kept },
            Reply::TooManyRecords { would } => Reply::TooManyRecords { would: *would },
            Reply::Acked => Reply::Acked,
            Reply::NoNotification => Reply::NoNotification,
        })
    }
}
