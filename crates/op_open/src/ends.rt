//! How an open ends.

ghost use Rattle.std.specs.Prelude.{◌≡◌, ◌≤◌, ◌<◌, ◌+◌, ◌-◌, ◌^◌, length, None};
ghost use Rattle.fsa_model.specs.Lookups.{handle_of};
ghost use Rattle.fsa_model.specs.Open.{access_of, deletes_on_close, with_open};
ghost use Rattle.op_open.specs.Conditions.{IsOpenBy};

use crate::asked::Asked;
use fsa_types::{Action, Body, Reply, Status};
use volume_state::{HandleRow, Tried, Volume};

/// The open ends well.
pub fn opens(status: Status, action: Action) -> Tried
    ensures { result ≡ Tried.Done (record { status = status; body = Body.Opened action }) }
{
    Tried::Done(Reply {
        status,
        body: Body::Opened(action),
    })
}

/// The handle is opened by this link, on this stream. There has to be room for it.
pub fn open_handle(volume: &mut Volume, asked: &Asked, link: u64, stream: Option<u64>)
    requires room { 1 ≤ volume.old.spare.handles }
    requires ids_left { volume.old.content.last_handle + 1 < 2 ^ 32 - 1 }
    requires client { asked.now.client < length volume.old.content.clients }
    requires new { handle_of volume.old.content asked.now.client asked.now.number ≡ None }
    requires living { IsOpenBy volume.old.content link stream }
    ensures content { volume.new.content ≡ with_open volume.old.content asked.now link stream }
    ensures others { volume.new.spare ≡ record volume.old.spare { handles = volume.new.spare.handles } }
{
    volume.add_handle(HandleRow {
        client: asked.client,
        number: asked.number,
        link,
        stream,
        access: asked.access(),
        share: asked.share,
        key: asked.key,
        delete_on_close: asked.deletes_on_close(),
        enumeration: None,
    });
}
