// What an image tells of the sheet that was written.
ghost use Rattle.round_trip.specs.Tells.{ImagesTell};

// An image is accepted as a sheet exactly when it is what is written of that sheet: the gate asks for its proof here.
pub fn images_tell() -> bool
    ensures { ImagesTell }
{
    true
}
