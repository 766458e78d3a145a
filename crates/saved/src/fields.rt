// No code: how a saved form is laid out, what saving promises, and the laws of both.
