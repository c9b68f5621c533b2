// The report, beside which points are declared.
use dk_base::{List, NoMemory};
use dk_claims::Section;
use dk_driver::Consumer;
use dk_events::Event;
use dk_points::Points;

/// The sections of a report. Of the files of its points nothing is kept beside these points.
#[derive(Drop)]
pub struct Reported {
    pub(crate) sections: List<Section>,
}

impl Consumer for Reported {
    ghost use Rattle.dk_tell.specs.Standing.{Fits, Stands, sections_of};

    type Given = List<Section>;

    ghost given = { sections_of };

    ghost fits = { Fits };

    ghost stands = { Stands };

    fn take(&mut self, _points: &Points, _file: usize, _event: Event<'_>) -> Result<(), NoMemory> {
        Ok(())
    }
}
