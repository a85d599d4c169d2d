use crate::engine::Engine;
use outer_world::Disk;
use own_base::SessionNo;
use own_model::Request;
use serve_model::{Ahead, Serves, Step};
use store_snapshot::Snapshot;

impl<D: Disk> Serves for Engine<D> {
    type Snap = Snapshot;

    fn serve(
        &mut self,
        session: SessionNo,
        call: u32,
        request: Request,
        ahead: Option<Ahead>,
    ) -> Step<Snapshot> {
        self.step_ahead(session, call, request, ahead)
    }
}
