// Images (document 01, "Saved image"): what save and load share. They are in the crates image_save and image_load.
#![tactic(auto)]

pub mod limits;

// What a load gives: the image's n and free count.
#[derive(Clone, Copy)]
pub struct Loaded {
    pub blocks: u32,
    pub free: u32,
}
