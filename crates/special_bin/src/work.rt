// The folder for files in transit.
use std::fs;
use std::io::Error;
use std::rt::Files;

/// Makes the folder of that name, where the folder that it is in stands. One that stands already is left as it is. No clause says
/// what there is on the disk then, or why there isn't: std's contracts say nothing of that.
pub(crate) fn make_work(rt: &impl Files, folder: &str) -> Result<(), Error> {
    match fs::create_dir(rt, folder) {
        Ok(()) => Ok(()),
        Err(_) if stands(rt, folder) => Ok(()),
        Err(error) => Err(error),
    }
}

fn stands(rt: &impl Files, folder: &str) -> bool {
    match fs::metadata(rt, folder) {
        Ok(metadata) => metadata.is_dir(),
        Err(_) => false,
    }
}
