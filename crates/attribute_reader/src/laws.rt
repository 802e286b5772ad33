//! What is read of attributes is what is spelled there.
ghost use Rattle.class_desc.specs.declared.place.Place.TheVariants as place;
ghost use Rattle.attribute_reader.specs.Laws.{ReadsSpelled, SpelledIsRead};

/// The attributes of a class, a field and a method.
pub fn reads_spelled_attributes()
    ensures spelled { ReadsSpelled place.Class × ReadsSpelled place.Field
        × ReadsSpelled place.Method }
    ensures read { SpelledIsRead place.Class × SpelledIsRead place.Field
        × SpelledIsRead place.Method }
{}
