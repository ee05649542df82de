/// How far the latest command is.
#[derive(Clone, Copy)]
pub enum Progress {
    NoCommand,
    Running,
    Finished,
}
