ghost use Rattle.std.specs.Prelude.{◌≡◌};
ghost use Rattle.cv_core_inventory.specs.code.Replies.{is_entered, is_registered};

use cv_core_records::Reply;

/// Whether an image was registered.
pub fn is_registered(reply: &Reply) -> bool
    ensures { result ≡ is_registered reply.now }
{
    matches!(reply, Reply::Registered)
}

/// Whether a layer was indexed.
pub fn is_entered(reply: &Reply) -> bool
    ensures { result ≡ is_entered reply.now }
{
    matches!(reply, Reply::Entered)
}
