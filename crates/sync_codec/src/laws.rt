ghost use Rattle.base_bytes.specs.Laws.{IsUnambiguous};
ghost use Rattle.sync_codec.specs.Messages.{IsRequest, IsResponse};

/// A request's bytes are read again as that request, begin no other's, and are the one form of the one request.
pub fn requests_are_unambiguous()
    ensures { IsUnambiguous IsRequest }
{}

/// A response's bytes are read again as that response, begin no other's, and are the one form of the one response.
pub fn responses_are_unambiguous()
    ensures { IsUnambiguous IsResponse }
{}
