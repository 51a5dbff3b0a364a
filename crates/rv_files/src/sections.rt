//! The segments of a text.

ghost use Rattle.std.specs.Prelude.{◌≡◌, ◌<◌, ◌++◌, IfOk, OnOk};
ghost use Rattle.rv_layout.specs.Sections.{sections};
ghost use Rattle.rv_files.specs.Segments.{AreBytes, HoldBytes, segment_at, segments_of, unless_empty};

use crate::segment::Segment;
use crate::segment_bytes::SegmentBytes;
use rv_layout::{SECTIONS, section_number};
use rv_list::View;
use rv_stmt::Sect;
use std::alloc::{AllocError, Global};

// What is loaded of a section.
fn segment_at<V: View>(alloc: Global, view: &V, section: usize) -> Result<Segment, AllocError>
    requires { section < sections }
    ensures segment { IfOk result (λ segment. segment ≡ segment_at (V.shown view.now) section) }
    ensures bytes { IfOk result (λ segment. AreBytes segment.bytes) }
{
    let place = view.section(section);
    if section == section_number(Sect::Bss) {
        let none = SegmentBytes::new(alloc);
        return Ok(Segment::new(section, place.base, none, place.size));
    }
    let bytes = SegmentBytes::of_section(alloc, view, section)?;
    Ok(Segment::new(section, place.base, bytes, 0))
}

// Adds a segment, unless nothing is loaded.
fn push_unless_empty(segments: &mut Vec<Segment>, segment: Segment) -> Result<(), AllocError>
    requires { AreBytes segment.bytes }
    ensures segments { OnOk result (segments.new.items ≡ segments.old.items ++ unless_empty segment) }
    ensures bytes { OnOk result (HoldBytes segments.old.items → HoldBytes segments.new.items) }
{
    if !segment.is_empty() {
        segments.push(segment)?;
    }
    Ok(())
}

/// The segments of a text: what is loaded of each section of which something is, in the order of the sections. That is its bytes,
/// and of `.bss` its zeros. What is written of them takes no more memory.
///
/// # Errors
///
/// `AllocError` if there is no memory for them.
pub fn segments<V: View>(alloc: Global, view: &V) -> Result<Vec<Segment>, AllocError>
    ensures segments { IfOk result (λ segments. segments.items ≡ segments_of (V.shown view.now)) }
    ensures bytes { IfOk result (λ segments. HoldBytes segments.items) }
{
    let mut segments = Vec::new(alloc);
    for section in 0..SECTIONS {
        let segment = segment_at(alloc, view, section)?;
        push_unless_empty(&mut segments, segment)?;
    }
    Ok(segments)
}
