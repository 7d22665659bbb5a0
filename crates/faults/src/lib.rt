// Why a sheet or an image is refused: the axis's fault inside the sheet's, and that inside the image's.
#![tactic(auto)]

mod model;
mod numbers;

pub use model::{Cause, ImageFault, Layer, SheetFault};
