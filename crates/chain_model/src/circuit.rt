// What was assembled.
use crate::device::Device;
use part_model::Net;

// The devices from TDI on, and the nets between their boundary cells.
#[derive(Drop)]
pub struct Circuit {
    pub devices: Vec<Device>,
    pub nets: Vec<Net>,
}
