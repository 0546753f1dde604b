//! The tests of the planes, triangles and texels, of the registers' and the buffers' words, and of the card over them.
#![tactic(auto)]

#[cfg(test)]
mod card;
#[cfg(test)]
mod card16;
#[cfg(test)]
mod carry;
#[cfg(test)]
mod cmdbuf;
#[cfg(test)]
mod context;
#[cfg(test)]
mod plane;
#[cfg(test)]
mod raster;
#[cfg(test)]
mod texel;
