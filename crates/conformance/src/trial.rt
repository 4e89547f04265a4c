use formats::run_file::RunFile;
use formats::specification::Specification;

/// A run beside the specification that it is checked against.
#[derive(Clone, Copy)]
pub struct Trial<'a> {
    pub specification: &'a Specification,
    pub run: RunFile<'a>,
}
