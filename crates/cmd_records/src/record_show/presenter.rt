//! `Presenter`, which shows the runs of a record to an audience.
ghost use Rattle.std.specs.Prelude.{OnOk};
ghost use Rattle.record_grammar.specs.declared.item.Item.{Item};
ghost use Rattle.record_view.specs.Shows.{IsSpelling};
ghost use Rattle.probes.specs.Shows.{Shows, seen};
ghost use Rattle.record_reader.specs.InItems.{run_in};

use probes::{Audience, Probe};
use record_codec::RunRoom;
use record_view::ItemView;
use std::alloc::{AllocError, Global};

/// Shows the Run frames of a record to an audience. A frame is decoded into memory that is used
/// again, and only while a probe still looks.
#[derive(Drop)]
pub struct Presenter {
    alloc: Global,
    room: RunRoom,
}

impl Presenter {
    /// It allocates nothing yet.
    pub fn new(alloc: Global) -> Presenter {
        Presenter {
            alloc,
            room: RunRoom::new(alloc),
        }
    }

    /// Shows an item if it is a Run frame. After an error some of the probes may have seen it.
    pub fn show(
        &mut self,
        view: ItemView,
        bytes: &[u8],
        audience: &mut Audience,
    ) -> Result<(), AllocError>
        requires { (item : Item) × IsSpelling view item bytes.now }
        ensures { (item : Item) → IsSpelling view item bytes.now
            → OnOk result (Shows (seen (λ b. life (b.vtable, b.value)) audience.old)
            (seen (λ b. life (b.vtable, b.value)) audience.new) (run_in item)) }
    {
        if audience.remaining() == 0 {
            return Ok(());
        }
        let Some(frame) = view.as_frame() else {
            return Ok(());
        };
        if self.room.fill(frame, bytes)? {
            audience.show(self.alloc, self.room.run())?;
        }
        Ok(())
    }
}
