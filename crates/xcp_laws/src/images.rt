//! What the image has that the tasks read.
ghost use Rattle.std.specs.Prelude.{◌≡◌, ◌<◌, ◌≤◌, ◌+◌, ◌%◌, ℕ, [], get_or, length, slice_index};
ghost use Rattle.xcp_memory.specs.EcuImage.{bytes_in_all, ecu_image, image_place, image_size};
ghost use Rattle.xcp_memory.specs.declared.class.Class.{Class};
ghost use Rattle.xcp_memory.specs.Layout.{IsLayout, LayoutValue};
ghost use Rattle.xcp_memory.specs.Memory.{Controller};
ghost use Rattle.xcp_memory.specs.Pages.{IsPages, PagesValue, no_segment, segment_at};

/// Behind the segments before it, byte k of a segment in the image is byte k of its page with the
/// controller's number, which is the controller's byte at the segment's address + k. Behind all segments
/// stand zeros, up to the image's size: whole words of eight bytes, 2,040 bytes in the class of 2,040 bytes, and in the large one fewer
/// than eight zeros.
pub fn an_image_has_the_controllers_bytes()
    ensures each { (v : PagesValue) (i k : ℕ) → IsPages v → i < length v.layout.segments → k < length (get_or v.layout.segments i no_segment).bytes → slice_index (ecu_image v) (image_place v.layout i + k) ≡ slice_index (get_or (segment_at v i).pages (segment_at v i).ecu []) k }
    ensures controller { (v : PagesValue) (i k : ℕ) → IsPages v → i < length v.layout.segments → k < length (get_or v.layout.segments i no_segment).bytes → Controller v ((get_or v.layout.segments i no_segment).address + k) (slice_index (ecu_image v) (image_place v.layout i + k)) }
    ensures rest { (v : PagesValue) (k : ℕ) → IsPages v → image_place v.layout (length v.layout.segments) ≤ k → k < image_size v.layout → slice_index (ecu_image v) k ≡ 0 }
    ensures long { (v : PagesValue) → IsLayout v.layout → IsPages v → length (ecu_image v) ≡ image_size v.layout }
    ensures words { (l : LayoutValue) → IsLayout l → (image_size l % 8 ≡ 0) × (8 ≤ image_size l) × (bytes_in_all l ≤ image_size l) }
    ensures papers { (l : LayoutValue) → l.class ≡ Class.Papers → image_size l ≡ 2040 }
    ensures large { (l : LayoutValue) → l.class ≡ Class.Large → image_size l < bytes_in_all l + 8 }
{}
