//! What decides the answers of a slave.
ghost use Rattle.std.specs.Prelude.{◌≡◌, ◌≤◌, ◌<◌, ◌++◌, ℕ, List, length, slice_index_or as get_or};
ghost use Rattle.sha2.specs.Hashers.{Holds256};
ghost use Rattle.sha2.specs.Sha256.{sha256};
ghost use Rattle.xcp_memory.specs.Layout.{no_event};
ghost use Rattle.xcp_memory.specs.Pages.{no_segment};
ghost use Rattle.xcp_program.specs.Decided.{all_decided, answers_decided, bytes_decided, class_decided, event_decided, extras_decided, own_decided, segment_decided, signals_decided};

use sha2::{Digest, Sha256};
use xcp_memory::{Class, Extras, Layout};

/// The SHA-256 of what decides the answers of a slave that begins with this layout: of all that the layout is, and of nothing else that
/// stands in a layout file, as a comment.
#[tactic(auto, unfolding(crate::specs::Decided::answers_decided))]
pub fn answers_digest(layout: &Layout) -> [u8; 32]
    ensures { result ≡ sha256 (answers_decided layout.now) }
{
    let mut hasher = Sha256::new();
    give_own(&mut hasher, layout);
    give_segments(&mut hasher, layout);
    give_signals(&mut hasher, layout);
    give_events(&mut hasher, layout);
    give_extras(&mut hasher, layout.extras());
    give_class(&mut hasher, layout.class());
    hasher.finalize()
}

/// Gives a hasher bytes behind how many they are.
#[tactic(auto, unfolding(crate::specs::Decided::bytes_decided))]
fn give_bytes(hasher: &mut Sha256, bytes: &[u8])
    requires { length bytes.now ≤ 0xFFFF_FFFF }
    ensures { (before : List ℕ) → Holds256 hasher.old before → Holds256 hasher.new (before ++ bytes_decided bytes.now) }
{
    hasher.update(&(bytes.len() as u32).to_le_bytes());
    hasher.update(bytes);
}

/// Gives a hasher what decides of the slave itself.
#[tactic(auto, unfolding(crate::specs::Decided::own_decided))]
fn give_own(hasher: &mut Sha256, layout: &Layout)
    ensures { (before : List ℕ) → Holds256 hasher.old before → Holds256 hasher.new (before ++ own_decided layout.now) }
{
    let clock = layout.clock();
    give_bytes(hasher, layout.id());
    hasher.update(&[
        layout.max_cto(),
        layout.max_dto(),
        layout.checksum_kind().number(),
        layout.order().bit(),
        clock.stamp.size(),
        clock.unit,
    ]);
    hasher.update(&clock.ticks.to_le_bytes());
}

/// Gives a hasher what decides of a segment.
#[tactic(auto, unfolding(crate::specs::Decided::segment_decided))]
fn give_segment(hasher: &mut Sha256, layout: &Layout, segment: usize)
    requires { segment < length layout.now.segments }
    ensures { (before : List ℕ) → Holds256 hasher.old before
        → Holds256 hasher.new (before ++ segment_decided (get_or layout.now.segments segment no_segment)) }
{
    hasher.update(&layout.segment_address(segment).to_le_bytes());
    give_bytes(hasher, layout.segment_bytes(segment));
    hasher.update(&[layout.segment_pages(segment)]);
}

/// Gives a hasher what decides of the segments.
#[tactic(auto, unfolding(crate::specs::Decided::all_decided))]
fn give_segments(hasher: &mut Sha256, layout: &Layout)
    ensures { (before : List ℕ) → Holds256 hasher.old before
        → Holds256 hasher.new (before ++ all_decided segment_decided layout.now.segments) }
{
    hasher.update(&(layout.segment_count() as u32).to_le_bytes());
    for segment in 0..layout.segment_count() {
        give_segment(hasher, layout, segment);
    }
}

/// Gives a hasher what decides of the signals.
#[tactic(auto, unfolding(crate::specs::Decided::signals_decided))]
fn give_signals(hasher: &mut Sha256, layout: &Layout)
    ensures { (before : List ℕ) → Holds256 hasher.old before → Holds256 hasher.new (before ++ signals_decided layout.now) }
{
    hasher.update(&layout.signals_address().to_le_bytes());
    hasher.update(&(layout.signals_length() as u32).to_le_bytes());
}

/// Gives a hasher what decides of an event channel.
#[tactic(auto, unfolding(crate::specs::Decided::event_decided))]
fn give_event(hasher: &mut Sha256, layout: &Layout, event: usize)
    requires { event < length layout.now.events }
    ensures { (before : List ℕ) → Holds256 hasher.old before
        → Holds256 hasher.new (before ++ event_decided (get_or layout.now.events event no_event)) }
{
    give_bytes(hasher, layout.event_name(event));
    hasher.update(&[
        layout.event_cycle(event),
        layout.event_unit(event),
        layout.event_priority(event),
    ]);
}

/// Gives a hasher what decides of the event channels.
#[tactic(auto, unfolding(crate::specs::Decided::all_decided))]
fn give_events(hasher: &mut Sha256, layout: &Layout)
    ensures { (before : List ℕ) → Holds256 hasher.old before
        → Holds256 hasher.new (before ++ all_decided event_decided layout.now.events) }
{
    hasher.update(&(layout.event_count() as u32).to_le_bytes());
    for event in 0..layout.event_count() {
        give_event(hasher, layout, event);
    }
}

/// Gives a hasher what decides of what the slave has beyond others.
#[tactic(auto, unfolding(crate::specs::Decided::extras_decided))]
fn give_extras(hasher: &mut Sha256, extras: &Extras)
    ensures { (before : List ℕ) → Holds256 hasher.old before → Holds256 hasher.new (before ++ extras_decided extras.now) }
{
    give_bytes(hasher, extras.a2l());
    hasher.update(&[
        u8::from(extras.uploads_a2l()),
        u8::from(extras.tells_overload()),
    ]);
    give_bytes(hasher, extras.epk());
    give_bytes(hasher, extras.description());
}

/// Gives a hasher what decides of the class.
#[tactic(auto, unfolding(crate::specs::Decided::class_decided))]
fn give_class(hasher: &mut Sha256, class: Class)
    ensures { (before : List ℕ) → Holds256 hasher.old before → Holds256 hasher.new (before ++ class_decided class) }
{
    match class {
        Class::Papers => {}
        Class::Large => hasher.update(&[1]),
    }
}
