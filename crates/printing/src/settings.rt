// What a text is printed with.
use crate::form::Form;
use ucdfiles::tables::Tables;
use units::level::Direction;

/// What a text is printed with: the tables, the direction and the form.
#[derive(Clone, Copy)]
pub(crate) struct Settings<'t> {
    pub(crate) tables: &'t Tables,
    pub(crate) direction: Direction,
    pub(crate) form: Form,
}
