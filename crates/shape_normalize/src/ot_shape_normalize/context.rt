//! What HarfBuzz hands its rounds of normalising as one value. The rounds here take each part by
//! itself.
use shape_buffer::buffer::hb_buffer_t;
use shape_plan::ot_shape_plan::hb_ot_shape_plan_t;

/// A buffer that is being normalised, with the plan and the face that it is normalised by. `S` is
/// the type of the shaper, `P` that of the compiled lookups, `D` that of the shaper's data.
#[derive(Drop)]
pub struct hb_ot_shape_normalize_context_t<'a, F, S, P, D> {
    pub plan: &'a hb_ot_shape_plan_t<'a, S, P, D>,
    pub buffer: &'a mut hb_buffer_t,
    pub face: &'a F,
}
