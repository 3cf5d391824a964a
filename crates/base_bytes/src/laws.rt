ghost use Rattle.base_bytes.specs.declared.shapes.Shapes.{Shapes};
ghost use Rattle.base_bytes.specs.declared.ty.Ty.{Ty};
ghost use Rattle.base_bytes.specs.Laws.{IsUnambiguous};
ghost use Rattle.base_bytes.specs.Payload.{IsPayload};

/// A payload of a type is read again as its value, begins no other payload of the type, and is the one spelling of the one value.
pub fn payloads_are_unambiguous()
    ensures { (shapes : Shapes) (ty : Ty) → IsUnambiguous (IsPayload shapes ty) }
{}
