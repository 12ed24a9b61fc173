/// What a case prints besides the answer to each command.
#[derive(Clone, Copy, PartialEq, Eq)]
pub enum Kind {
    /// How each value comes.
    Courses,
    /// The fed cells.
    Fed,
}

impl Kind {
    /// The kind that the heading of a case has.
    pub fn of(heading: &str) -> Kind {
        if heading.starts_with("course: ") {
            Kind::Courses
        } else {
            Kind::Fed
        }
    }
}
