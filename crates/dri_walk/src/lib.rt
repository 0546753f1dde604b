//! How a card draws a triangle: what the registers decide is decided once, but for the depth test and the depth write, and a
//! texture's format and wrapping, which are values asked at each pixel. The rows that hold something of the triangle are
//! walked by spans, and along a span the quantities are stepped. What is drawn on is any surface of pairs of a colour and a
//! depth.
#![tactic(auto)]

mod blending;
mod brush;
mod clipping;
mod colouring;
mod depth_test;
mod drawing;
mod rows;
mod sampler;
mod surface;

pub use clipping::nearest;
pub use drawing::draw_triangle;
pub use surface::Surface;
