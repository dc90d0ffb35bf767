use runs::table::WorldTable;
use runs::timetable::Timetable;

// Where a run text has come to: nothing yet, a table with its first worlds told, or a timetable.
#[derive(Clone, Copy)]
pub enum RunStage {
    Start,
    Telling { table: WorldTable, told: u16 },
    Timing(Timetable),
}

// The run that a text describes.
#[derive(Clone, Copy)]
pub enum TextRun {
    Worlds(WorldTable),
    Times(Timetable),
}
